// The allowed acts, by number and counted.
ghost use Rattle.std.specs.Prelude.{◌≡◌, length, slice_get};
ghost use Rattle.device_record.specs.Acts.{acts_in};
ghost use Rattle.device_record.specs.Steady.{IsSteady};

use crate::searching::Search;
use crate::sections::pass_all;
use cxl_message::Act;
use device_state::Tables;

/// The allowed act of a number, in the order of the next steps: `None` where there are no more (own rule).
#[tactic(auto, using(crate::proofs::Passing::finds))]
pub fn act_at(tables: &Tables, number: u32) -> Option<Act>
    requires { IsSteady tables.now.setup tables.now.kept }
    ensures { result ≡ slice_get (acts_in tables.now.setup tables.now.kept) number }
{
    let mut search = Search::Skip(number);
    pass_all(tables, &mut search);
    match search {
        Search::Skip(_) => None,
        Search::Found(act) => Some(act),
    }
}

/// How many acts are allowed (own rule).
pub fn act_count(tables: &Tables) -> u32
    requires { IsSteady tables.now.setup tables.now.kept }
    ensures { result ≡ length (acts_in tables.now.setup tables.now.kept) }
{
    let mut search = Search::Skip(u32::MAX);
    pass_all(tables, &mut search);
    match search {
        Search::Skip(left) => u32::MAX - left,
        Search::Found(_) => unreachable!("so many acts are never allowed"),
    }
}
