//! Proposes an entry of a certificate for a check: values of its constants, or a refutation. The caller tests what is proposed, so
//! nothing is promised of it here.
//!
//! From a check to an entry it goes in steps:
//!
//! 1. **Clauses** (clauses.rt). The assertions, the schemes of the check's nodes and lemmas of earlier checks are clauses over
//!    the nodes, and a solver of clauses looks for truth values with which all are true. Its theory is that of finite fields
//!    (Nieuwenhuis, Oliveras and Tinelli 2006: DPLL modulo theories; Ozdemir, Kremer, Tinelli and Barrett 2023).
//! 2. **A trail** (theory.rt) says which equalities hold and which do not. A walk from the assertions down finds those on which
//!    their truth rests. Those that it has come upon are matched by what follows from them by congruence (`ffc_matching`), which
//!    refutes two copies of a circuit, and fix values of nodes (`ffc_fixed`): where two of these clash, the few that the clash
//!    rests on are judged. All go back as far as literals leave the trail. As long as an equality that matters has no value, the
//!    theory agrees to the trail; then it judges all of them.
//! 3. **Judging** (judging.rt) goes from field to field. There (fields.rt) the equalities are polynomials, one component of the
//!    check's nodes after another (components.rt), in groups that share no variable, each with a part of the units. Of a group,
//!    inputs are guessed and the circuit evaluated; then its linear equalities are solved by elimination (linear.rt), which
//!    decides a group that has no others; then the equalities that hold are lines of a basis, which is completed further and
//!    further until it settles the others; then the circuit is evaluated by these lines; and then a search by cases looks for
//!    values (`ffc_search`).
//! 4. **A model** is what the equalities are true with, whatever the other nodes are: values of all fields end the search.
//! 5. **A conflict** is a case tree that closes. It is written as a lemma: the clause of the equalities, turned around, that its
//!    first lines are made of. The solver learns from it and goes on.
//! 6. **Set aside** are equalities that are not decided within their share of units. The first time, where equalities of the
//!    check have no value yet, the trail goes on until all have one, and from then on all are judged, as long as that decides each
//!    trail (equalities.rt). A clause keeps the solver from that trail,
//!    and is no lemma: where the clauses are refuted with its help, nothing is known.
//! 7. **Rounds** (proposing.rt). Then the next round begins with clauses made anew, twice the share, and the lemmas so far. A
//!    refutation that rests on clauses and lemmas alone is an entry.
//!
//! Without lines of bits the engine works on copies of the check's nodes, and keeps lemmas from check to check. With them it works
//! on the nodes themselves and keeps nothing.
#![tactic(auto)]

mod clauses;
mod components;
mod equalities;
mod fields;
mod judging;
mod linear;
mod proposing;
mod theory;

pub use proposing::Engine;
