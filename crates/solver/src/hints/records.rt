use std::alloc::Global;

/// How many failures count as one time. Where each had a time of its own, a search of questions without structure
/// would follow its last failure alone, and make twice as many splits.
const PERIOD: u64 = 64;

/// In which failures the splits of an Or took part: when in the last one, a time from 1, or 0 where in none; and in
/// how many.
#[derive(Clone, Copy)]
pub(crate) struct Record {
    pub(crate) time: u64,
    pub(crate) count: u64,
}

/// That of an Or whose splits took part in no failure.
const EMPTY: Record = Record { time: 0, count: 0 };

/// The records of all Ors. To split what took part in the last conflict comes from Lecoutre and others (2009), to
/// count the conflicts and to let the older ones weigh less from Moskewicz and others (2001).
#[derive(Drop)]
pub(crate) struct Records {
    /// How many positions there are: the list below, of one record a position, is made with the first failure.
    positions: usize,
    records: Vec<Record>,
    /// How many failures there were.
    pub(crate) failures: u64,
    /// Whether memory was refused to the list.
    pub(crate) is_refused: bool,
}

impl Records {
    /// None, of so many positions.
    pub(crate) fn new(alloc: Global, positions: usize) -> Records {
        Records {
            positions,
            records: Vec::new(alloc),
            failures: 0,
            is_refused: false,
        }
    }

    /// A split of the Or took part in the last failure.
    pub(crate) fn put(&mut self, position: usize) {
        if self.records.is_empty() {
            self.is_refused |= self.records.resize(self.positions, EMPTY).is_err();
        }
        if position < self.records.len() {
            let time = (self.failures / PERIOD).saturating_add(1);
            let count = self.records[position].count.saturating_add(1);
            self.records[position] = Record { time, count };
        }
    }

    /// The record of the Or.
    pub(crate) fn record(&self, position: usize) -> Record {
        if position < self.records.len() {
            self.records[position]
        } else {
            EMPTY
        }
    }
}
