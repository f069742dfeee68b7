//! What holds of the definitions.

ghost use Rattle.std.specs.Prelude.{◌≡◌};
ghost use Rattle.std.specs.Result.{result_err};
ghost use Rattle.toml.specs.Data.{Members};
ghost use Rattle.ynl_config.specs.Anywhere.{first_among, faults_in};
ghost use Rattle.ynl_config.specs.Meaning.{MeansAccepted};
ghost use Rattle.ynl_config.specs.Tables.{written_in};

/// The fault that is told of a text's tables and values is the first, in the order of the faults,
/// that any of them has anywhere; where none has one, all are read.
pub fn first_fault_is_told()
    ensures { (ms : Members) → result_err (written_in ms) ≡ first_among (faults_in ms) }
{}

/// What a text means is accepted: its numbers are in range, and it has no fault.
pub fn meaning_is_accepted()
    ensures { MeansAccepted }
{}
