//! What an audit tells: laws of the definition of what [`audit_lines`](crate::audit_lines) writes.

ghost use Rattle.ynl_commands.specs.Audited.{AgreeingPass, FirstIsTold, PassingAgree, PassingShowAlone};

/// A journal whose replies are all the cluster's passes, from whatever state: the audit finds its entries,
/// or the fault that reading it finds.
pub fn agreeing_journals_pass()
    ensures { AgreeingPass }
{}

/// Where an audit does not tell that a reply differs, each reply that the journal has is the cluster's, from
/// the state that the audit began from.
pub fn passing_journals_agree()
    ensures { PassingAgree }
{}

/// Where an audit tells that a reply differs, it is that of the first entry of which this holds, from
/// whatever state.
pub fn the_first_that_differs_is_told()
    ensures { FirstIsTold }
{}

/// A journal that passes its audit from the opening state and lacks no reply shows each tenant that alone may
/// use an exclusive partition of an accepted configuration as alone there.
pub fn passing_journals_show_tenants_alone()
    ensures { PassingShowAlone }
{}
