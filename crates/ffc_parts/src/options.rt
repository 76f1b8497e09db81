//! The options of a script.
ghost use Rattle.std.specs.Prelude.{◌≡◌, option_map};
ghost use Rattle.ffc_smt.specs.Meaning.{found};
ghost use Rattle.ffc_smt.specs.Scopes.{first_options, option_of, with_option};
ghost use Rattle.ffc_smt.specs.CommandReading.{options};
ghost use Rattle.ffc_parts.specs.Heads.{options_of, setting_of};

/// The options that are known.
#[derive(Clone, Copy, Debug, PartialEq, Eq)]
pub enum Setting {
    PrintSuccess,
    ProduceModels,
    GlobalDeclarations,
    ProduceUnsatCores,
    ProduceUnsatAssumptions,
}

/// The option of a keyword.
pub fn setting_named(keyword: &[u8]) -> Option<Setting>
    ensures { option_map setting_of result ≡ found options keyword.now }
{
    if b":print-success".as_slice() == keyword {
        Some(Setting::PrintSuccess)
    } else if b":produce-models".as_slice() == keyword {
        Some(Setting::ProduceModels)
    } else if b":global-declarations".as_slice() == keyword {
        Some(Setting::GlobalDeclarations)
    } else if b":produce-unsat-cores".as_slice() == keyword {
        Some(Setting::ProduceUnsatCores)
    } else if b":produce-unsat-assumptions".as_slice() == keyword {
        Some(Setting::ProduceUnsatAssumptions)
    } else {
        None
    }
}

/// The values of the options.
#[derive(Clone, Copy, Debug, PartialEq, Eq)]
pub struct Options {
    pub print_success: bool,
    pub produce_models: bool,
    pub global_declarations: bool,
    pub produce_unsat_cores: bool,
    pub produce_unsat_assumptions: bool,
}

impl Options {
    /// Those at the start.
    pub fn new() -> Options
        ensures { options_of result ≡ first_options }
    {
        Options {
            print_success: false,
            produce_models: true,
            global_declarations: false,
            produce_unsat_cores: true,
            produce_unsat_assumptions: true,
        }
    }

    pub fn get(&self, setting: Setting) -> bool
        ensures { result ≡ option_of (options_of self.now) (setting_of setting) }
    {
        match setting {
            Setting::PrintSuccess => self.print_success,
            Setting::ProduceModels => self.produce_models,
            Setting::GlobalDeclarations => self.global_declarations,
            Setting::ProduceUnsatCores => self.produce_unsat_cores,
            Setting::ProduceUnsatAssumptions => self.produce_unsat_assumptions,
        }
    }

    pub fn set(&mut self, setting: Setting, value: bool)
        ensures { options_of self.new ≡ with_option (options_of self.old) (setting_of setting) value }
    {
        match setting {
            Setting::PrintSuccess => self.print_success = value,
            Setting::ProduceModels => self.produce_models = value,
            Setting::GlobalDeclarations => self.global_declarations = value,
            Setting::ProduceUnsatCores => self.produce_unsat_cores = value,
            Setting::ProduceUnsatAssumptions => self.produce_unsat_assumptions = value,
        }
    }
}
