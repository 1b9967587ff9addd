// The search for the act of a number.
ghost use Rattle.std.specs.Prelude.{◌≡◌, ◌∷◌, [], if◌then◌else◌, is_some, option_to_list};
ghost use Rattle.device_acts.specs.Searching.{found, searched, searched_act};

use cxl_message::Act;

/// A search for the act of a number among the allowed acts.
#[derive(Clone, Copy)]
pub enum Search {
    /// So many acts come before it.
    Skip(u32),
    /// It is found.
    Found(Act),
}

impl Search {
    /// Whether it has found its act.
    pub fn is_found(&self) -> bool
        ensures { result ≡ is_some (found self.now) }
    {
        match self {
            Search::Skip(_) => false,
            Search::Found(_) => true,
        }
    }
}

/// One act more is allowed.
fn pass(search: &mut Search, act: Act)
    ensures { search.new ≡ searched_act act search.old }
{
    match *search {
        Search::Skip(0) => *search = Search::Found(act),
        Search::Skip(count) => *search = Search::Skip(count - 1),
        Search::Found(_) => {}
    }
}

/// An act is allowed or not.
pub fn pass_if(search: &mut Search, is_allowed: bool, act: Act)
    ensures { search.new ≡ searched (if is_allowed then act ∷ [] else []) search.old }
{
    if is_allowed {
        pass(search, act);
    }
}

/// An act is allowed, or none.
pub fn pass_some(search: &mut Search, act: Option<Act>)
    ensures { search.new ≡ searched (option_to_list act) search.old }
{
    if let Some(act) = act {
        pass(search, act);
    }
}
