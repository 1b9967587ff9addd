// The links of a table.
ghost use Rattle.std.specs.Prelude.{◌+◌, ◌<◌, ◌^◌, ◌≡◌, ◌≤◌, length};
ghost use Rattle.linked_order.specs.Links.{named, newer_at, older_at, put_last, renamed, taken_out, with_newer, with_older};

/// The names of a place's neighbours. The name of a place is its number and one; 0 names none.
#[derive(Clone, Copy, Debug)]
pub struct Link {
    pub older: u32,
    pub newer: u32,
}

/// The link of a place without neighbours.
pub const ALONE: Link = Link { older: 0, newer: 0 };

/// Sets the newer name of the place of a name, if it names one.
pub fn set_newer(links: &mut [Link], name: u32, to: u32)
    requires { name ≤ length links.old }
    ensures { links.new ≡ with_newer name to links.old }
{
    if name > 0 {
        let at = name as usize - 1;
        let older = links[at].older;
        links[at] = Link { older, newer: to };
    }
}

/// Sets the older name of the place of a name, if it names one.
pub fn set_older(links: &mut [Link], name: u32, to: u32)
    requires { name ≤ length links.old }
    ensures { links.new ≡ with_older name to links.old }
{
    if name > 0 {
        let at = name as usize - 1;
        let newer = links[at].newer;
        links[at] = Link { older: to, newer };
    }
}

/// Puts a place after the place of the last name: its own name is that of the last place then.
pub fn append(links: &mut [Link], place: u32, last: u32)
    requires place { place < length links.old }
    requires last { last ≤ length links.old }
    requires name { place + 1 < 2 ^ 32 }
    ensures { links.new ≡ put_last place last links.old }
{
    set_newer(links, last, place + 1);
    links[place as usize] = Link {
        older: last,
        newer: 0,
    };
}

/// Takes a place out: its neighbours get each other's names. The answer is the link that it had.
pub fn unlink(links: &mut [Link], place: u32) -> Link
    requires place { place < length links.old }
    requires older { older_at links.old place ≤ length links.old }
    requires newer { newer_at links.old place ≤ length links.old }
    ensures taken_out { links.new ≡ taken_out place links.old }
    ensures older { result.older ≡ older_at links.old place }
    ensures newer { result.newer ≡ newer_at links.old place }
{
    let link = links[place as usize];
    set_newer(links, link.older, link.newer);
    set_older(links, link.newer, link.older);
    link
}

/// The name, or another where it is this one.
pub fn replaced(name: u32, this: u32, other: u32) -> u32
    ensures { result ≡ renamed name this other }
{
    if name == this { other } else { name }
}

/// The place of a name, or `None` where it names none.
pub fn place_named(name: u32) -> Option<u32>
    ensures { result ≡ named name }
{
    name.checked_sub(1)
}
