//! What runs over a store of 8 keys show, one behind the other, however each of them ended: a slot of
//! a bucket's fill is read once, an epoch that is tried again shows the same leaves and reads, and a
//! bucket is read where the events before have told that it lies.

use std::process::Abort;

// The buckets lie in 35 cells from the first of these on, and in as many from the second.
const FIRST_HOME: usize = 39;

const SECOND_HOME: usize = 74;

const CELLS: usize = 109;

// The lines of a format's trace.
const FORMAT: usize = 73;

// A leaf is below this number.
const LEAVES: u64 = 4;

// What a cell of a bucket is: of the home where the bucket doesn't lie, without what an end has filled
// it with or with it; or of that where it lies, and was read since it was filled or wasn't.
const EMPTY: u8 = 0;

const FILLED: u8 = 1;

const UNREAD: u8 = 2;

const READ: u8 = 3;

/// What has been shown behind a format.
#[derive(Drop)]
struct Shown {
    /// What each cell is.
    cells: [u8; CELLS],
    /// The holes of the running epoch, as far as a run came that tried it: leaves, and slots by their
    /// cells.
    holes: Vec<u64>,
    /// How many of them the present run has shown.
    place: usize,
    /// Whether the second checkpoint is that of the epoch that stands.
    area: bool,
    /// Whether the epoch's register was being set, so that its gate's next write opens it.
    opens: bool,
    /// Whether an end's last write is made and no sync behind it.
    in_doubt: bool,
    /// Whether the present run goes on from the epoch that is in doubt.
    newer: bool,
}

impl Shown {
    // What an end has filled is where its bucket lies now, or isn't any more.
    fn settle(&mut self, ended: bool) {
        for cell in FIRST_HOME..CELLS {
            if self.cells[cell] == FILLED {
                self.cells[cell] = EMPTY;
                if ended {
                    let other = if cell < SECOND_HOME {
                        cell + 35
                    } else {
                        cell - 35
                    };
                    self.cells[other] = EMPTY;
                    self.cells[cell] = UNREAD;
                }
            }
        }
    }

    // A run begins.
    fn begin(&mut self) {
        self.place = 0;
        self.opens = false;
        self.newer = false;
        if !self.in_doubt {
            self.settle(false);
        }
    }

    // What was in doubt is sure: the epoch has ended where the run goes on from there.
    fn sync(&mut self) {
        if !self.in_doubt {
            return;
        }
        self.settle(self.newer);
        if self.newer {
            self.area = !self.area;
            self.holes.clear();
            self.place = 0;
        }
        self.in_doubt = false;
        self.opens = false;
    }

    // Whether the write may come.
    fn write(&mut self, cell: usize) -> bool {
        match cell {
            5 | 7 => self.opens = true,
            6 | 8 => {
                self.in_doubt = self.opens;
                self.newer = self.opens;
            }
            _ => {}
        }
        if cell < FIRST_HOME || cell >= CELLS {
            return cell < FIRST_HOME;
        }
        let away = self.cells[cell] < UNREAD;
        self.cells[cell] = FILLED;
        away
    }

    // Whether the hole may be filled so.
    fn fill<R: AllocGlobal + Abort>(&mut self, rt: &R, hole: u64) -> bool {
        let place = self.place;
        self.place = place.saturating_add(1);
        if let Some(before) = self.holes.get(place) {
            return *before == hole;
        }
        self.holes.push(hole).expect(rt, "memory");
        let cell = hole as usize;
        if cell < FIRST_HOME || cell >= CELLS {
            return hole < LEAVES;
        }
        let unread = self.cells[cell] == UNREAD;
        self.cells[cell] = READ;
        unread
    }

    // Whether the read may come: the first cell of a checkpoint tells which epoch was found.
    fn read<R: AllocGlobal + Abort>(&mut self, rt: &R, cell: usize) -> bool {
        if cell == 17 || cell == 28 {
            self.newer = (cell == 28) != self.area;
            return self.in_doubt || !self.newer;
        }
        if cell < FIRST_HOME || cell >= CELLS {
            return cell < FIRST_HOME;
        }
        self.cells[cell] >= UNREAD && self.fill(rt, cell as u64)
    }

    // Whether the line may stand behind those before it.
    fn take<R: AllocGlobal + Abort>(&mut self, rt: &R, line: &str) -> bool {
        let (kind, number) = line.split_once(' ').unwrap_or((line, "0"));
        let number = number.parse::<u64>().ok().expect(rt, "a number");
        match kind {
            "O" => self.begin(),
            "S" => self.sync(),
            "W" => return self.write(number as usize),
            "L" => return number < LEAVES && self.fill(rt, number),
            _ => return self.read(rt, number as usize),
        }
        true
    }
}

/// Whether the runs that these lines tell of, behind a format, show each slot once and what was
/// shown before them.
pub fn is_fresh<R: AllocGlobal + Abort>(rt: &R, text: &str) -> bool {
    let mut cells = [EMPTY; CELLS];
    for cell in FIRST_HOME..SECOND_HOME {
        cells[cell] = UNREAD;
    }
    let mut shown = Shown {
        cells,
        holes: Vec::new(rt.alloc()),
        place: 0,
        area: false,
        opens: false,
        in_doubt: false,
        newer: false,
    };
    for line in text.lines().skip(FORMAT) {
        if !shown.take(rt, line) {
            return false;
        }
    }
    true
}
