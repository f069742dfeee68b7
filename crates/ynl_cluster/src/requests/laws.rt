//! What the rows say of requests is what the model says.

ghost use Rattle.ynl_cluster.specs.requests.First.{FirstIsModel};
ghost use Rattle.ynl_cluster.specs.requests.Laws.{AskedIsModel, OrderIsModel, RunsIsModel, WantedIsModel};
ghost use Rattle.ynl_cluster.specs.requests.Tables.{SoundIsDistinct, SoundIsTabled};

/// An application runs in the model if its rows say so.
pub fn runs_is_the_models()
    ensures { RunsIsModel }
{}

/// The requests for a partition are the model's.
pub fn wanted_is_the_models()
    ensures { WantedIsModel }
{}

/// The asks for a partition are the model's.
pub fn asked_is_the_models()
    ensures { AskedIsModel }
{}

/// Applications of a leaf stand in the model in the order of the rows.
pub fn order_is_the_models()
    ensures { OrderIsModel }
{}

/// The first of a leaf's requests that pass a test, by the order of the rows and by their ranks, is
/// the first in the model's order of service.
pub fn first_is_the_models()
    ensures { FirstIsModel }
{}

/// The state that the rows mean finds its applications and leaves by their names.
pub fn sound_rows_are_tabled()
    ensures { SoundIsTabled }
{}

/// The asks of each of its applications differ.
pub fn asks_of_sound_rows_differ()
    ensures { SoundIsDistinct }
{}
