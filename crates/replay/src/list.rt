// A record's parts as numbers, and the comparison of slices with them. What is not there reads as 0, so that nothing is demanded of a file.

// The room for a slice of a record.
pub const ROOM: usize = 192;

// The room for the numbers and the parts of a line.
pub const VALUES: usize = 1024;

pub const MARKS: usize = 64;

// What stands in a slice lent for an answer before the call, and stays where it stores nothing.
pub const UNTOUCHED: u64 = 77;

// What a slice of a record holds: numbers of 8, 32 or 64 bits.
pub trait Entry: Copy {
    // What is larger is cut.
    fn cut(number: u64) -> Self;

    fn wide(self) -> u64;
}

impl Entry for u8 {
    fn cut(number: u64) -> u8 {
        (number % 0x100) as u8
    }

    fn wide(self) -> u64 {
        u64::from(self)
    }
}

impl Entry for u32 {
    fn cut(number: u64) -> u32 {
        (number % 0x1_0000_0000) as u32
    }

    fn wide(self) -> u64 {
        u64::from(self)
    }
}

impl Entry for u64 {
    fn cut(number: u64) -> u64 {
        number
    }

    fn wide(self) -> u64 {
        self
    }
}

// A line's numbers; for each part the index of its first number, and last that past the end.
#[derive(Drop)]
pub struct Record {
    values: [u64; VALUES],
    marks: [usize; MARKS],
}

// The number with one digit more. The largest of 64 bits is 18446744073709551615, so a number of twenty digits may end in 0 to 5 alone; what
// is larger reads as one of those.
fn grown(value: u64, digit: u8) -> u64 {
    if value < 1844674407370955161 {
        value * 10 + u64::from(digit % 10)
    } else {
        18446744073709551610 + u64::from(digit % 6)
    }
}

impl Record {
    // A digit goes on with a number, another byte ends it; a mark and the end of the line end a part.
    pub fn of(line: &[u8]) -> Record {
        // Written where it stands: made of two arrays that were filled before, it would be copied at every line.
        let mut record = Record {
            values: [0; VALUES],
            marks: [0; MARKS],
        };
        let mut stored = 0;
        let mut parts = 0;
        let mut open = None;
        for &byte in line.iter().chain(b"\n") {
            if byte.is_ascii_digit() {
                open = Some(grown(open.unwrap_or(0), byte - b'0'));
            } else {
                if let Some(value) = open
                    && stored < VALUES
                {
                    record.values[stored] = value;
                    stored += 1;
                }
                open = None;
                if matches!(byte, b'|' | b'=' | b'\n') && parts < MARKS - 1 {
                    parts += 1;
                    record.marks[parts] = stored;
                }
            }
        }
        record
    }

    // The numbers of a part.
    fn part(&self, part: usize) -> &[u64] {
        if part < MARKS - 1
            && self.marks[part] <= self.marks[part + 1]
            && self.marks[part + 1] <= VALUES
        {
            &self.values[self.marks[part]..self.marks[part + 1]]
        } else {
            &[]
        }
    }

    // The number at which a part begins, also where the part is empty.
    fn number(&self, part: usize) -> u64 {
        let first = self.marks.get(part).copied().unwrap_or(0);
        self.values.get(first).copied().unwrap_or(0)
    }

    pub fn size(&self, part: usize) -> usize {
        self.number(part) as usize
    }

    pub fn word(&self, part: usize) -> u32 {
        u32::cut(self.number(part))
    }

    pub fn flag(&self, part: usize) -> bool {
        self.number(part) == 1
    }

    pub fn signed(&self, part: usize) -> i32 {
        let bits = self.number(part) % 0x1_0000_0000;
        if bits < 0x8000_0000 {
            bits as i32
        } else {
            -1 - (0xffff_ffff - bits) as i32
        }
    }

    // A part in the room given, which is cut where the part ends.
    pub fn entries<'a, T: Entry>(&self, part: usize, room: &'a mut [T]) -> &'a mut [T] {
        let numbers = self.part(part);
        let len = numbers.len().min(room.len());
        let cells = &mut room[..len];
        for (cell, number) in cells.iter_mut().zip(numbers) {
            *cell = T::cut(*number);
        }
        cells
    }

    // Whether the call answered the number recorded.
    pub fn answered(&self, part: usize, answer: u32) -> bool {
        self.number(part) == u64::from(answer)
    }

    // Whether a slice is as recorded: the part's numbers, and past its end what stood there before.
    pub fn holds<T: Entry>(&self, part: usize, cells: &[T]) -> bool {
        let numbers = self.part(part);
        if cells.len() < numbers.len() {
            return false;
        }
        for (i, cell) in cells.iter().enumerate() {
            if cell.wide() != numbers.get(i).copied().unwrap_or(UNTOUCHED) {
                return false;
            }
        }
        true
    }
}
