//! The commands by name, and when they may come.
ghost use Rattle.std.specs.Prelude.{◌≡◌, None, IfSome, IfNone};
ghost use Rattle.ffc_smt.specs.Meaning.{found};
ghost use Rattle.ffc_smt.specs.Scopes.{State};
ghost use Rattle.ffc_smt.specs.CommandReading.{Limits, readers};
ghost use Rattle.ffc_parts.specs.Heads.{MayComeAs, head_name};

use crate::tables::found_in;

#[derive(Clone, Copy, Debug, PartialEq, Eq)]
pub enum Head {
    SetLogic,
    SetOption,
    GetOption,
    SetInfo,
    GetInfo,
    Echo,
    DeclareConst,
    DeclareFun,
    DefineSort,
    DefineFun,
    Assert,
    CheckSat,
    CheckSatAssuming,
    GetUnsatCore,
    GetUnsatAssumptions,
    GetModel,
    GetValue,
    Push,
    Pop,
    ResetAssertions,
    Reset,
    Exit,
}

/// The commands by name.
const HEADS: [(&[u8], Head); 22] = [
    (b"set-logic", Head::SetLogic),
    (b"set-option", Head::SetOption),
    (b"get-option", Head::GetOption),
    (b"set-info", Head::SetInfo),
    (b"get-info", Head::GetInfo),
    (b"echo", Head::Echo),
    (b"declare-const", Head::DeclareConst),
    (b"declare-fun", Head::DeclareFun),
    (b"define-sort", Head::DefineSort),
    (b"define-fun", Head::DefineFun),
    (b"assert", Head::Assert),
    (b"check-sat", Head::CheckSat),
    (b"check-sat-assuming", Head::CheckSatAssuming),
    (b"get-unsat-core", Head::GetUnsatCore),
    (b"get-unsat-assumptions", Head::GetUnsatAssumptions),
    (b"get-model", Head::GetModel),
    (b"get-value", Head::GetValue),
    (b"push", Head::Push),
    (b"pop", Head::Pop),
    (b"reset-assertions", Head::ResetAssertions),
    (b"reset", Head::Reset),
    (b"exit", Head::Exit),
];

/// The command of a name.
pub fn head_named(name: &[u8]) -> Option<Head>
    ensures known { IfSome result (λ h. name.now ≡ head_name h) }
    ensures unknown { (l : Limits) (s : State) → IfNone result (found (readers l s) name.now ≡ None) }
{
    found_in(&HEADS, name)
}

impl Head {
    /// Whether the command may come where a logic was set, or was not.
    pub fn may_come(self, logic: bool) -> bool
        ensures { (l : Limits) (s : State) → MayComeAs (found (readers l s) (head_name self)) logic result }
    {
        match self {
            Head::SetLogic => !logic,
            Head::SetOption
            | Head::GetOption
            | Head::SetInfo
            | Head::GetInfo
            | Head::Echo
            | Head::Reset
            | Head::Exit => true,
            Head::DeclareConst
            | Head::DeclareFun
            | Head::DefineSort
            | Head::DefineFun
            | Head::Assert
            | Head::CheckSat
            | Head::CheckSatAssuming
            | Head::GetUnsatCore
            | Head::GetUnsatAssumptions
            | Head::GetModel
            | Head::GetValue
            | Head::Push
            | Head::Pop
            | Head::ResetAssertions => logic,
        }
    }
}
