// Scripts of several hosts, picks, whole lines, few ways and few filter entries, each with what its trace sums up to.

/// A script, the length of its trace, and the sum of the trace's bytes, each times its place from 1 on.
#[derive(Clone, Copy)]
pub struct Flow {
    /// How the script begins: all of its lines but the picks.
    pub script: &'static str,
    /// How many picks of 0 follow.
    pub zeros: usize,
    /// The lines of the other picks.
    pub picks: &'static str,
    /// The length of the trace, in bytes.
    pub length: usize,
    /// The sum.
    pub sum: u64,
}

/// A load by one host, and by another.
pub const SHARING: Flow = Flow {
    script: "hosts 2\nlines 4\nfilter 4\nways 2\ntags 2\ncredits 2\nroom 100\nstream 0\nload 0\nstream 1\nload 0\n",
    zeros: 0,
    picks: "",
    length: 707,
    sum: 866277,
};

/// Two hosts share a line, and one stores to it.
pub const STORE_OVER_SHARED_COPIES: Flow = Flow {
    script: "hosts 2\nlines 4\nfilter 4\nways 2\ntags 2\ncredits 2\nroom 100\nstream 0\nload 0\nstream 1\nload 0\nstream 0\nword 0 0 0000000000000001\n",
    zeros: 0,
    picks: "",
    length: 1144,
    sum: 2525170,
};

/// A modified line is wanted by another host.
pub const MODIFIED_LINE_IS_WANTED: Flow = Flow {
    script: "hosts 2\nlines 4\nfilter 4\nways 2\ntags 2\ncredits 2\nroom 100\nstream 0\nword 0 0 0000000000000001\nstream 1\nword 0 1 0000000000000002\n",
    zeros: 0,
    picks: "",
    length: 940,
    sum: 1385363,
};

/// A conflict that ends early.
pub const EARLY_CONFLICT: Flow = Flow {
    script: "hosts 2\nlines 4\nfilter 4\nways 2\ntags 2\ncredits 2\nroom 100\nstream 0\nload 0\nstream 1\nload 0\nstream 0\nword 0 0 0000000000000001\nstream 1\nword 0 1 0000000000000002\n",
    zeros: 33,
    picks: "pick 1\n",
    length: 1929,
    sum: 6261740,
};

/// A conflict that ends late.
pub const LATE_CONFLICT: Flow = Flow {
    script: "hosts 2\nlines 4\nfilter 4\nways 2\ntags 2\ncredits 2\nroom 100\nstream 0\nword 0 0 0000000000000001\nstream 1\nword 0 1 0000000000000002\n",
    zeros: 1,
    picks: "pick 1\npick 0\npick 0\npick 0\npick 0\npick 2\npick 2\npick 2\npick 2\npick 0\npick 2\npick 0\npick 0\n",
    length: 1108,
    sum: 1954617,
};

/// The eviction of a modified line crosses a snoop.
pub const DIRTY_EVICTION_CROSSES: Flow = Flow {
    script: "hosts 2\nlines 2\nfilter 2\nways 1\ntags 2\ncredits 2\nroom 100\nstream 0\nword 0 0 0000000000000001\nload 1\nstream 1\nword 0 1 0000000000000002\n",
    zeros: 12,
    picks: "pick 1\npick 0\npick 0\npick 0\npick 2\n",
    length: 1244,
    sum: 2338851,
};

/// The eviction of a clean line crosses a snoop.
pub const CLEAN_EVICTION_CROSSES: Flow = Flow {
    script: "hosts 2\nlines 2\nfilter 2\nways 1\ntags 2\ncredits 2\nroom 100\nstream 0\nload 0\nload 1\nstream 1\nword 0 0 0000000000000001\n",
    zeros: 12,
    picks: "pick 1\npick 0\npick 0\npick 0\npick 2\n",
    length: 1283,
    sum: 2731918,
};

/// A filter of one entry evicts a line.
pub const FILTER_OF_ONE_ENTRY: Flow = Flow {
    script: "hosts 1\nlines 2\nfilter 1\nways 2\ntags 2\ncredits 2\nroom 100\nstream 0\nload 0\nload 1\n",
    zeros: 0,
    picks: "",
    length: 723,
    sum: 910939,
};

/// Stores of whole lines, under a conflict that ends early.
pub const WHOLE_STORES_IN_CONFLICT: Flow = Flow {
    script: "hosts 2\nlines 4\nfilter 4\nways 2\ntags 2\ncredits 2\nroom 100\nstream 0\nload 0\nstream 1\nload 0\nstream 0\nwhole 0 11111111111111111111111111111111111111111111111111111111111111111111111111111111111111111111111111111111111111111111111111111111\nstream 1\nwhole 0 22222222222222222222222222222222222222222222222222222222222222222222222222222222222222222222222222222222222222222222222222222222\n",
    zeros: 33,
    picks: "pick 1\n",
    length: 1853,
    sum: 22463322,
};

/// The filter evicts a block of four lines.
pub const BLOCKS_OF_FOUR: Flow = Flow {
    script: "hosts 1\nlines 5\nfilter 4\nways 5\ntags 2\ncredits 2\nroom 100\nstream 0\nload 0\nload 1\nload 2\nload 3\nload 4\n",
    zeros: 0,
    picks: "",
    length: 1713,
    sum: 5192659,
};

/// A host with one way evicts a modified line.
pub const DIRTY_EVICTION: Flow = Flow {
    script: "hosts 1\nlines 2\nfilter 2\nways 1\ntags 2\ncredits 2\nroom 100\nstream 0\nword 0 0 0000000000000001\nload 1\n",
    zeros: 0,
    picks: "",
    length: 841,
    sum: 972259,
};

/// A store of a whole line, and a load that hits.
pub const WHOLE_STORE_AND_HIT: Flow = Flow {
    script: "hosts 1\nlines 1\nfilter 1\nways 1\ntags 2\ncredits 2\nroom 100\nstream 0\nwhole 0 11111111111111111111111111111111111111111111111111111111111111111111111111111111111111111111111111111111111111111111111111111111\nload 0\n",
    zeros: 0,
    picks: "",
    length: 414,
    sum: 1232896,
};

/// A shared copy is dropped without a message.
pub const SHARED_COPY_IS_DROPPED: Flow = Flow {
    script: "hosts 2\nlines 2\nfilter 2\nways 1\ntags 2\ncredits 2\nroom 100\nstream 0\nload 0\nstream 1\nload 0\nload 1\nstream 0\nword 0 0 0000000000000001\n",
    zeros: 0,
    picks: "",
    length: 1474,
    sum: 4024470,
};
