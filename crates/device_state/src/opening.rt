// What the device keeps before its first event.
ghost use Rattle.std.specs.Prelude.{◌≡◌, [], IfOk, replicate};
ghost use Rattle.device_record.specs.Opened.{opened_device};

use crate::tables::Tables;
use cxl_message::{Opening, Setup};
use device_lines::DeviceLines;
use device_tables::{HostCredits, Requests, Tasks};
use snoop_filter::Filter;
use std::alloc::{AllocError, Global};

/// All tables of a setup, with memory as an opening has it. They take all the memory that the device ever has.
pub fn open_tables(alloc: Global, setup: &Setup, opening: &Opening) -> Result<Tables, AllocError>
    ensures opened { IfOk result (λ t. t ≡ record { setup = setup.now; kept = opened_device setup.now opening.now }) }
{
    let hosts = setup.hosts();
    let lines = DeviceLines::open(alloc, setup, opening)?;
    let filter = Filter::open(alloc, setup.entries(), hosts, setup.lines())?;
    let tasks = Tasks::open(alloc, setup.lines())?;
    let requests = open_requests(alloc, hosts)?;
    let credits = vec![in alloc; HostCredits::full(setup.credits()); hosts as usize]?;
    Ok(Tables {
        setup: *setup,
        lines,
        filter,
        tasks,
        requests,
        credits,
    })
}

/// No buffered requests for each host.
#[tactic(auto, using(crate::proofs::Opened::replicate_more))]
fn open_requests(alloc: Global, hosts: u8) -> Result<Vec<Requests>, AllocError>
    ensures { IfOk result (λ requests. requests.items ≡ replicate hosts []) }
{
    let mut requests = Vec::with_capacity(alloc, hosts as usize)?;
    for _ in 0..hosts {
        requests.push(Requests::open(alloc)?)?;
    }
    Ok(requests)
}
