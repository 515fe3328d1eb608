//! Laws of the inside host that has an external endpoint, if hosts have port blocks.
ghost use Rattle.napt_laws.specs.Hosts.{BlocksNameTheirHosts, HostsHaveTheirBlocks, BlocksAreApart, RunsNameTheirHosts};

use crate::runs::taken_states_are_kept;

/// Law: the configuration alone determines the host of an external endpoint, whose block has it.
pub fn blocks_have_one_host()
    ensures told { BlocksNameTheirHosts }
    ensures own { HostsHaveTheirBlocks }
    ensures apart { BlocksAreApart }
{}

/// Law: if hosts have port blocks, the configuration determines, after any inputs from a state that
/// it accepts, the inside host of each binding except redirects by its external endpoint.
pub fn runs_name_their_hosts()
    ensures { RunsNameTheirHosts }
{
    taken_states_are_kept();
}
