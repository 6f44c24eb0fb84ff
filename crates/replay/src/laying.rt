// The desk's own functions.
use crate::list::{ROOM, Record, UNTOUCHED};

// Of the two values lent the second stays as it was.
pub fn fitting_colours(record: &Record) -> bool {
    let mut pieceroom = [0u32; ROOM];
    let pieces = record.entries(0, &mut pieceroom);
    let mut tileroom = [0u8; ROOM];
    let tiles = record.entries(3, &mut tileroom);
    let mut found = [UNTOUCHED; 2];
    let number = desk::desk_fitting_colours(
        pieces,
        record.size(1),
        record.size(2),
        tiles,
        record.word(4),
        record.signed(5),
        record.signed(6),
        record.signed(7),
        record.signed(8),
        &mut found,
    );
    record.answered(9, number) && record.holds(10, &found)
}

pub fn lay(record: &Record) -> bool {
    let mut pieceroom = [0u32; ROOM];
    let pieces = record.entries(0, &mut pieceroom);
    let mut weightroom = [0u32; ROOM];
    let weights = record.entries(1, &mut weightroom);
    let mut countroom = [0u32; ROOM];
    let counts = record.entries(2, &mut countroom);
    let mut tileroom = [0u8; ROOM];
    let tiles = record.entries(5, &mut tileroom);
    let number = desk::desk_lay(
        pieces,
        weights,
        counts,
        record.size(3),
        record.size(4),
        tiles,
        record.word(6),
        record.signed(7),
        record.signed(8),
        record.signed(9),
        record.signed(10),
        record.word(11),
    );
    record.answered(12, number)
        && record.holds(13, pieces)
        && record.holds(14, weights)
        && record.holds(15, counts)
}

pub fn lift(record: &Record) -> bool {
    let mut pieceroom = [0u32; ROOM];
    let pieces = record.entries(0, &mut pieceroom);
    let mut weightroom = [0u32; ROOM];
    let weights = record.entries(1, &mut weightroom);
    let mut countroom = [0u32; ROOM];
    let counts = record.entries(2, &mut countroom);
    let mut tileroom = [0u8; ROOM];
    let tiles = record.entries(5, &mut tileroom);
    let number = desk::desk_lift(
        pieces,
        weights,
        counts,
        record.size(3),
        record.size(4),
        tiles,
        record.word(6),
        record.signed(7),
        record.signed(8),
        record.signed(9),
        record.signed(10),
    );
    record.answered(11, number)
        && record.holds(12, pieces)
        && record.holds(13, weights)
        && record.holds(14, counts)
}
