//! What holds of polynomials of nodes and of case trees, for the crates above. Each function has an empty body: its
//! contract is the law.
ghost use Rattle.ffc_trees.specs.Laws.{NormalIsSame, NormalIsNormal, PolynomialsKeepValues, PolynomialsStay};
ghost use Rattle.ffc_trees.specs.Laws.{PolynomialsHaveVariables, MeasuresBound, TreesRefute, ReadTreesClose};
ghost use Rattle.ffc_trees.specs.Laws.{BitLinesVanish, DivisorsAreGreatest};
ghost use Rattle.ffc_trees.specs.Laws.{ClosedTreesAreRead, TreesAreTakenOff, FirstLinesVanish, LemmasAreSound};
ghost use Rattle.ffc_trees.specs.Rules.{SumsAre, BitsAre, ChainsAre, StepsAre, SplitsAre, ValuesAre};
ghost use Rattle.ffc_trees.specs.Same.{SizesAreOne, StagesReadAlike, TreesReadAlike};

/// The normal list of a polynomial is the same polynomial, with different monomials and coefficients from 1 to p - 1.
pub fn normal_lists()
    ensures same { NormalIsSame }
    ensures normal { NormalIsNormal }
{}

/// The polynomial of a field node has the node's residue at each point that gives every node its own residue.
pub fn polynomials_keep_values()
    ensures { PolynomialsKeepValues }
{}

/// Further nodes change no polynomial.
pub fn polynomials_stay()
    ensures { PolynomialsStay }
{}

/// The variables of a node's polynomial are constants and `ite`s of its order in its cone.
pub fn polynomials_have_variables()
    ensures { PolynomialsHaveVariables }
{}

/// The degree and the number of terms of a node's polynomial are at most the node's measures.
pub fn measures_bound()
    ensures { MeasuresBound }
{}

/// A line keeps its rule exactly where its parts are there, are residues, are within the limits and fit.
pub fn rules_are_kept()
    ensures sums { SumsAre }
    ensures bits { BitsAre }
    ensures chains { ChainsAre }
    ensures steps { StepsAre }
    ensures splits { SplitsAre }
    ensures values { ValuesAre }
{}

/// The polynomial of a line of bits is 0 wherever the lines so far are; and its divisors are greatest common divisors.
pub fn bit_lines_vanish()
    ensures zeros { BitLinesVanish }
    ensures divisors { DivisorsAreGreatest }
{}

/// A tree that closes refutes that all its first lines are 0 at a point of residues.
pub fn trees_refute()
    ensures { TreesRefute }
{}

/// A tree is read to its end exactly where it closes.
pub fn read_trees_close()
    ensures only { ReadTreesClose }
    ensures all { ClosedTreesAreRead }
{}

/// A tree has one line at least, and none of its lines is a clause.
pub fn trees_are_taken_off()
    ensures { TreesAreTakenOff }
{}

/// Where no literal of a lemma is true, the first lines of its tree are 0 at some point of residues.
pub fn first_lines_vanish()
    ensures { FirstLinesVanish }
{}

/// A lemma whose tree is read to its end is true under every assignment.
pub fn lemmas_are_sound()
    ensures { LemmasAreSound }
{}

/// Normal lists of one polynomial have the same number of terms and the same degree.
pub fn sizes_are_one()
    ensures { SizesAreOne }
{}

/// What is read of a tree depends on the polynomials of the lines, and not on the order of their terms.
pub fn trees_read_alike()
    ensures stages { StagesReadAlike }
    ensures trees { TreesReadAlike }
{}
