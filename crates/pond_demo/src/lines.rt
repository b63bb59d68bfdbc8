// The lines of the demo as they would be typed, remarks before them, and what each asks.
// Above it: the demo. Below it: nothing.

// A segment of the store: the slot for it, its name and file, and where its bytes lie.
#[derive(Clone, Copy)]
pub struct Segment {
    pub slot: usize,
    pub name: &'static [u8],
    pub file: &'static [u8],
    pub start: usize,
    pub len: usize,
}

// What a line asks of the bench. Sessions and slots have the numbers that they get in the order in which they are opened and loaded.
#[derive(Clone, Copy)]
pub enum Deed {
    Records,
    Archive,
    Load(Segment),
    Open(u64, &'static [u8]),
    OpenFor(u64, &'static [u8], u16),
    Turn(u64, u64),
    Words(u64, u64),
    Map,
}

#[derive(Clone, Copy)]
pub struct Line {
    pub says: &'static [u8],
    pub does: Deed,
}

const NORTH: Segment = Segment {
    slot: 0,
    name: b"north",
    file: b"north.seg",
    start: 0,
    len: 74,
};

const SOUTH: Segment = Segment {
    slot: 1,
    name: b"south",
    file: b"south.seg",
    start: 74,
    len: 74,
};

const BEYOND: Segment = Segment {
    slot: 2,
    name: b"beyond",
    file: b"beyond.seg",
    start: 148,
    len: 38,
};

const READS: Segment = Segment {
    slot: 3,
    name: b"reads",
    file: b"reads.seg",
    start: 186,
    len: 38,
};

const WRITES: Segment = Segment {
    slot: 4,
    name: b"writes",
    file: b"writes.seg",
    start: 224,
    len: 38,
};

pub const LINES: [Line; 26] = [
    Line {
        says: b"# Two farms, North and South, on one bench. Its shared words are an archive of ammonia readings, a record of four words\n\
          # for each: farm, pond, day and concentration. North is farm 12, South is farm 17.\n\
          > bench 250 records farms.csv\n",
        does: Deed::Records,
    },
    Line {
        says: b"> archive\n",
        does: Deed::Archive,
    },
    Line {
        says: b"> load north north.seg\n",
        does: Deed::Load(NORTH),
    },
    Line {
        says: b"> load south south.seg\n",
        does: Deed::Load(SOUTH),
    },
    Line {
        says: b"# A session that is opened for a farm sees that farm's records and no others.\n\
          > open north north 32 for 12\n",
        does: Deed::OpenFor(0, b"north", 12),
    },
    Line {
        says: b"> open south south 32 for 17\n",
        does: Deed::OpenFor(1, b"south", 17),
    },
    Line {
        says: b"# Their reports run by turns, some steps each, until both are finished.\n\
          > turn north 40\n",
        does: Deed::Turn(0, 40),
    },
    Line {
        says: b"> turn south 60\n",
        does: Deed::Turn(1, 60),
    },
    Line {
        says: b"> turn north 1000\n",
        does: Deed::Turn(0, 1000),
    },
    Line {
        says: b"> turn south 1000\n",
        does: Deed::Turn(1, 1000),
    },
    Line {
        says: b"# A report leaves the sum of its readings in word 6, the highest in word 7, the mean in word 8.\n\
          > words north 6 3\n",
        does: Deed::Words(0, 3),
    },
    Line {
        says: b"> words south 6 3\n",
        does: Deed::Words(1, 3),
    },
    Line {
        says: b"# A report of North's takes one record too many. If it sees all the shared words, it prints a reading of South's:\n\
          > load beyond beyond.seg\n",
        does: Deed::Load(BEYOND),
    },
    Line {
        says: b"> open before beyond 32\n",
        does: Deed::Open(2, b"before"),
    },
    Line {
        says: b"> turn before 1000\n",
        does: Deed::Turn(2, 1000),
    },
    Line {
        says: b"> words before 6 1\n",
        does: Deed::Words(2, 1),
    },
    Line {
        says: b"# The same report, opened for its farm:\n\
          > open after beyond 32 for 12\n",
        does: Deed::OpenFor(2, b"after", 12),
    },
    Line {
        says: b"> turn after 1000\n",
        does: Deed::Turn(3, 1000),
    },
    Line {
        says: b"# The spring accident. In the old runner word 70 was South's sum, and a stale address in a report of\n\
          # North's printed it. The same report here:\n\
          > load reads reads.seg\n",
        does: Deed::Load(READS),
    },
    Line {
        says: b"> open stale reads 32 for 12\n",
        does: Deed::OpenFor(3, b"stale", 12),
    },
    Line {
        says: b"> turn stale 1000\n",
        does: Deed::Turn(4, 1000),
    },
    Line {
        says: b"# The next run wrote a zero there:\n\
          > load writes writes.seg\n",
        does: Deed::Load(WRITES),
    },
    Line {
        says: b"> open zero writes 32 for 12\n",
        does: Deed::OpenFor(4, b"zero", 12),
    },
    Line {
        says: b"> turn zero 1000\n",
        does: Deed::Turn(5, 1000),
    },
    Line {
        says: b"# South's words are as they were.\n\
          > words south 6 3\n",
        does: Deed::Words(1, 3),
    },
    Line {
        says: b"> map\n",
        does: Deed::Map,
    },
];
