//! Laws that tie hosts to histories. Each is a call that does nothing and ensures the law.
ghost use Rattle.host_ties.specs.HostRules.{HostPulls, HostRules};
ghost use Rattle.host_ties.specs.HostTies.{HostsBegin, HostsHaveInputs, HostsPlay, HostsRestart, HostsStay};

/// A host that is given the input of an enabled event of its own can take it, puts out the event's outputs, and is then
/// what the longer history says of it, as long as the log has at most 10000 commands.
pub fn law_hosts_play()
    ensures { HostsPlay }
{}

/// Each enabled event of a host has an input, but for a restart.
pub fn law_hosts_have_inputs()
    ensures { HostsHaveInputs }
{}

/// An event of another actor leaves a host as it is.
pub fn law_hosts_stay()
    ensures { HostsStay }
{}

/// A restart of a host loses its pulls, and nothing else.
pub fn law_hosts_restart()
    ensures { HostsRestart }
{}

/// A host has at first applied nothing: it has the opening's state, the first floor, and neither cells nor pulls.
pub fn law_hosts_begin()
    ensures { HostsBegin }
{}

/// Which rule an event of a host breaks, by the host as plain data.
pub fn law_host_rules()
    ensures { HostRules }
{}

/// A host's list of pulls has for each session the pull that the history says of it.
pub fn law_host_pulls()
    ensures { HostPulls }
{}
