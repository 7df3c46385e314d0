ghost use Rattle.std.specs.Prelude.{◌≡◌, ◌⊎◌, Err};
ghost use Rattle.agent_clients.specs.Asking.{stepped};
ghost use Rattle.agent_clients.specs.declared.fault.ClientFault.TheVariants as fault;

use agent_clients::{ClientFault, Event, Step, UserAgent};
use std::alloc::Global;

/// What an agent that asks does next, once something happened.
pub fn user_step(
    alloc: Global,
    agent: &mut UserAgent,
    now: u32,
    event: Event<'_>,
) -> Result<Step, ClientFault>
    ensures { ((result ≡ Err fault.NoMemory) × (agent.new ≡ agent.old)) ⊎ ((result ≡ (stepped agent.old now event.entry).answer) × (agent.new ≡ record agent.old { stage = (stepped agent.old now event.entry).stage })) }
{
    let told = agent.step(alloc, now, event);
    told
}
