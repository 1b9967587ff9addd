// What is pending at the device.
ghost use Rattle.std.specs.Prelude.{◌≡◌, ◌<◌, length, nat_le};
ghost use Rattle.device_record.specs.Record.{requests_at};
ghost use Rattle.device_record.specs.Weights.{has_buffered as host_has_buffered, pending_in};

use device_state::Tables;

/// Whether a task stands or a message is buffered.
pub fn pending(tables: &Tables) -> bool
    requires { length tables.now.kept.writes ≡ tables.now.setup.hosts }
    ensures { result ≡ pending_in tables.now.setup tables.now.kept }
{
    if tables.tasks.all().len() >= 1 {
        return true;
    }
    for host in 0..tables.setup.hosts() {
        if has_buffered(tables, host) {
            return true;
        }
    }
    false
}

/// Whether a message of a host is buffered.
fn has_buffered(tables: &Tables, host: u8) -> bool
    requires { host < length tables.now.kept.writes }
    ensures { result ≡ host_has_buffered tables.now.kept host }
{
    has_requests(tables, host) || tables.lines.count(host) >= 1
}

/// Whether a request of a host is buffered.
fn has_requests(tables: &Tables, host: u8) -> bool
    ensures { result ≡ nat_le 1 (length (requests_at host tables.now.kept.requests)) }
{
    match tables.requests.get(host as usize) {
        Some(requests) => requests.waiting().len() >= 1,
        None => false,
    }
}
