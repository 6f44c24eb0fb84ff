// Places on the compiled code: document 01's case of extension, and the ends of every range.
#![tactic(auto)]

use rules::{BoundingBox, ExtensionInfo, Offset, Pads, Refusal, World};
use std::io;

fn space(rt: &impl Print) -> io::Result<()> {
    rt.write_all(b" ")
}

fn newline(rt: &impl Print) -> io::Result<()> {
    rt.write_all(b"\n")
}

fn number(rt: &impl Print, n: usize) -> io::Result<()> {
    space(rt)?;
    rt.print(n as u64)
}

fn signed(rt: &impl Print, z: i32) -> io::Result<()> {
    rt.write_all(if z < 0 { b" -" } else { b" " })?;
    rt.print(z.unsigned_abs() as u64)
}

fn flag(rt: &impl Print, b: bool) -> io::Result<()> {
    number(rt, b as usize)
}

fn refused(rt: &impl Print, refusal: Refusal) -> io::Result<()> {
    rt.write_all(b"refused")?;
    number(rt, refusal as usize)?;
    newline(rt)
}

fn span(rt: &impl Print, offset: Offset, at: World, radius: usize) -> io::Result<()> {
    match place_spans::get_region_spans(offset, at, radius) {
        Ok(spans) => {
            rt.write_all(b"span")?;
            for n in [spans.rows.0, spans.rows.1, spans.cols.0, spans.cols.1] {
                number(rt, n)?;
            }
            newline(rt)
        }
        Err(refusal) => refused(rt, refusal),
    }
}

fn inside(rt: &impl Print, bounds: BoundingBox, at: World) -> io::Result<()> {
    match place_boxes::contains(bounds, at) {
        Ok(b) => {
            rt.write_all(b"contains")?;
            flag(rt, b)?;
            newline(rt)
        }
        Err(refusal) => refused(rt, refusal),
    }
}

fn grown(rt: &impl Print, answer: Result<ExtensionInfo, Refusal>) -> io::Result<()> {
    match answer {
        Ok(e) => {
            rt.write_all(b"pads")?;
            for n in [e.pads.left, e.pads.right, e.pads.top, e.pads.bottom] {
                number(rt, n)?;
            }
            rt.write_all(b" offset")?;
            signed(rt, e.offset.0)?;
            signed(rt, e.offset.1)?;
            rt.write_all(b" needed")?;
            flag(rt, e.needed)?;
            newline(rt)
        }
        Err(refusal) => refused(rt, refusal),
    }
}

fn free(
    rt: &impl Print,
    rows: usize,
    cols: usize,
    offset: Offset,
    at: World,
    radius: usize,
) -> io::Result<()> {
    grown(
        rt,
        place_extension::calculate_extension(rows, cols, offset, at, radius),
    )
}

// A 5x5 grid at offset 0, round the given place with radius 2.
fn boxed(rt: &impl Print, at: World, min: World, max: World) -> io::Result<()> {
    let bounds = BoundingBox { min, max };
    grown(
        rt,
        place_extension::constrain_extension(5, 5, Offset(0, 0), at, 2, bounds),
    )
}

fn words(rt: &impl Print, target: &[u32]) -> io::Result<()> {
    for n in target {
        number(rt, *n as usize)?;
    }
    newline(rt)
}

fn done(rt: &impl Print, answer: Result<(), Refusal>) -> io::Result<()> {
    match answer {
        Ok(()) => rt.write_all(b"copied\n"),
        Err(refusal) => refused(rt, refusal),
    }
}

// A plane of one row, 7 and 9, copied into a target of eight cells that hold 5.
fn copy(rt: &impl Print, rows: usize, cols: usize, pads: Pads) -> io::Result<()> {
    let plane = [7u32, 9];
    let mut target = [5u32; 8];
    done(
        rt,
        copies::extend_array_2d_u32(&mut target, &plane, rows, cols, pads),
    )?;
    words(rt, &target)
}

// Of each cell whether it holds 1.0, and whether it holds x.
fn floats(rt: &impl Print, target: &[f64], x: f64) -> io::Result<()> {
    for held in target {
        flag(rt, *held == 1.0)?;
        flag(rt, *held == x)?;
    }
    newline(rt)
}

// The same of floats: 0.5 and x, into cells that hold 0.0.
fn copy_floats(rt: &impl Print, x: f64, pads: Pads) -> io::Result<()> {
    let plane = [0.5f64, x];
    let mut target = [0.0f64; 8];
    done(
        rt,
        copies::extend_array_2d_f64(&mut target, &plane, 1, 2, pads),
    )?;
    floats(rt, &target, x)
}

fn spans(rt: &impl Print) -> io::Result<()> {
    span(rt, Offset(0, 0), World(0, 0), 0)?;
    span(rt, Offset(0, 0), World(3, 1), 2)?;
    span(
        rt,
        Offset(1_000_000, 1_000_000),
        World(1_000_000, -1_000_000),
        63,
    )?;
    span(
        rt,
        Offset(-999_937, -999_937),
        World(-1_000_000, 1_000_000),
        63,
    )?;
    span(rt, Offset(0, 0), World(-1, -63), 0)?;
    span(rt, Offset(0, 0), World(-63, -64), 63)?;
    span(rt, Offset(0, 0), World(0, 0), 64)?;
    span(rt, Offset(0, 0), World(1_000_001, 0), 63)?;
    span(rt, Offset(0, 0), World(0, -1_000_001), 63)?;
    span(rt, Offset(-999_938, 0), World(0, 0), 63)?;
    span(rt, Offset(0, 1_000_001), World(0, 0), 63)?;
    span(rt, Offset(0, 1_000_001), World(0, 0), 64)
}

fn boxes(rt: &impl Print) -> io::Result<()> {
    let one = BoundingBox {
        min: World(-1, 0),
        max: World(9, 9),
    };
    inside(rt, one, World(-1, 0))?;
    inside(rt, one, World(9, 9))?;
    inside(rt, one, World(-2, 0))?;
    inside(rt, one, World(-1, -1))?;
    inside(rt, one, World(10, 9))?;
    inside(rt, one, World(9, 10))?;
    let none = BoundingBox {
        min: World(1, 0),
        max: World(0, 9),
    };
    inside(rt, none, World(1, 0))?;
    inside(rt, none, World(0, 0))?;
    let far = BoundingBox {
        min: World(-1_000_000, -1_000_000),
        max: World(1_000_000, 1_000_001),
    };
    inside(rt, far, World(0, 0))?;
    inside(rt, one, World(0, 1_000_001))
}

fn extensions(rt: &impl Print) -> io::Result<()> {
    free(rt, 5, 5, Offset(0, 0), World(0, 0), 2)?;
    free(rt, 5, 5, Offset(0, 0), World(2, 2), 2)?;
    free(rt, 5, 5, Offset(0, 0), World(4, 3), 2)?;
    free(rt, 1, 1, Offset(0, 0), World(0, 0), 0)?;
    free(
        rt,
        1,
        64,
        Offset(-999_937, -999_937),
        World(-1_000_000, 1_000_000),
        63,
    )?;
    free(
        rt,
        64,
        1,
        Offset(1_000_000, 1_000_000),
        World(-1_000_000, 1_000_000),
        63,
    )?;
    free(rt, 0, 1, Offset(0, 0), World(0, 0), 0)?;
    free(rt, 1, 65, Offset(0, 0), World(0, 0), 0)?;
    free(rt, 1, 1, Offset(0, 0), World(0, 0), 64)?;
    free(rt, 1, 1, Offset(0, 0), World(0, 1_000_001), 0)?;
    free(rt, 1, 1, Offset(1_000_001, 0), World(0, 0), 0)
}

fn boxed_extensions(rt: &impl Print) -> io::Result<()> {
    boxed(rt, World(0, 0), World(-1, 0), World(9, 9))?;
    boxed(rt, World(0, 0), World(-2, -2), World(9, 9))?;
    boxed(rt, World(4, 4), World(-9, -9), World(5, 4))?;
    boxed(rt, World(0, 0), World(9, 9), World(-1, -1))?;
    boxed(rt, World(4, 4), World(9, 9), World(-1, -1))?;
    boxed(rt, World(0, 0), World(2, 2), World(3, 3))?;
    boxed(rt, World(4, 4), World(2, 2), World(3, 3))?;
    boxed(rt, World(0, 0), World(-1_000_001, 0), World(9, 9))?;
    boxed(rt, World(0, 0), World(0, 0), World(9, 1_000_001))
}

fn pads(left: usize, right: usize, top: usize, bottom: usize) -> Pads {
    Pads {
        left,
        right,
        top,
        bottom,
    }
}

fn planes(rt: &impl Print) -> io::Result<()> {
    copy(rt, 1, 2, pads(1, 0, 1, 1))?;
    copy(rt, 1, 2, pads(0, 1, 2, 0))?;
    copy(rt, 1, 2, pads(0, 0, 0, 6))?;
    copy(rt, 2, 1, pads(0, 2, 1, 0))?;
    copy(rt, 1, 2, pads(1, 0, 1, 0))?;
    copy(rt, 1, 1, pads(1, 0, 1, 2))?;
    copy(
        rt,
        1,
        2,
        pads(18_446_744_073_709_551_615, 18_446_744_073_709_551_615, 0, 0),
    )?;
    copy(rt, 1, 2, pads(0, 0, 0, 63))?;
    copy(rt, 0, 2, pads(2, 0, 1, 1))?;
    copy_floats(rt, 0.25, pads(1, 0, 1, 1))?;
    copy_floats(rt, -1.0, pads(1, 0, 1, 1))?;
    copy_floats(rt, 0.0 / 0.0, pads(1, 0, 1, 1))?;
    copy_floats(rt, 0.25, pads(1, 0, 1, 0))
}

fn main(rt: HostRuntime) -> io::Result<()> {
    spans(&rt)?;
    boxes(&rt)?;
    extensions(&rt)?;
    boxed_extensions(&rt)?;
    planes(&rt)
}
