//! The headline, a call that does nothing.

ghost use Rattle.vcd_reader.specs.Dump.{Contents};
ghost use Rattle.workers_core.specs.Values.{Says};
ghost use Rattle.workers_core.specs.Following.{FollowsMachine};
ghost use Rattle.laws_headline.specs.Headline.{DecidesAsMeant};

use workers_core::Core;

/// Every core, so the one after any list of steps: it follows the checked machine, and where a
/// program is that of an assertion, what its monitor published is the assertion's meaning.
pub fn headline(core: &Core<'_>)
    ensures machine { (c : Contents) → Says core.now.job c → FollowsMachine core.now c }
    ensures meaning { (c : Contents) → Says core.now.job c → DecidesAsMeant core.now c }
{
    core.follows_machine();
}
