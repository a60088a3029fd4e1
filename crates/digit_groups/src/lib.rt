// The digits of a number, three at a time, from a table of 1,000 groups. It uses nothing.
#![tactic(auto)]

ghost use Rattle.std.specs.Prelude.{◌≡◌, cond, ◌%◌, ◌<◌};
ghost use Rattle.digit_groups.specs.Group.{entry_of, group_of};
ghost use Rattle.digit_groups.specs.Table.{word_of, Ruled, RowRuled};

use table::Row;

mod table;

// Three digits, in ASCII.
#[derive(Clone, Copy)]
pub struct Group {
    pub first: u8,
    pub second: u8,
    pub third: u8,
}

// The table.
#[tactic(auto, unfolding(crate::specs::Table::ruled))]
fn rows() -> [Row; 50]
    ensures { Ruled entry_of result }
{
    table::ROWS
}

// A row of the table. Rows that are read at fixed places become data of the library: with `t[k]` the whole table would be laid on the
// stack first.
#[tactic(auto, using(crate::specs::Table::row_at))]
fn row_at(k: u64) -> Row
    requires { k < 50 }
    ensures { RowRuled entry_of k result }
{
    let t = rows();
    match k {
        0 => t[0],
        1 => t[1],
        2 => t[2],
        3 => t[3],
        4 => t[4],
        5 => t[5],
        6 => t[6],
        7 => t[7],
        8 => t[8],
        9 => t[9],
        10 => t[10],
        11 => t[11],
        12 => t[12],
        13 => t[13],
        14 => t[14],
        15 => t[15],
        16 => t[16],
        17 => t[17],
        18 => t[18],
        19 => t[19],
        20 => t[20],
        21 => t[21],
        22 => t[22],
        23 => t[23],
        24 => t[24],
        25 => t[25],
        26 => t[26],
        27 => t[27],
        28 => t[28],
        29 => t[29],
        30 => t[30],
        31 => t[31],
        32 => t[32],
        33 => t[33],
        34 => t[34],
        35 => t[35],
        36 => t[36],
        37 => t[37],
        38 => t[38],
        39 => t[39],
        40 => t[40],
        41 => t[41],
        42 => t[42],
        43 => t[43],
        44 => t[44],
        45 => t[45],
        46 => t[46],
        47 => t[47],
        48 => t[48],
        49 => t[49],
        _ => t[0],
    }
}

// One of two words.
fn either(b: bool, x: u64, y: u64) -> u64
    ensures { result ≡ cond b x y }
{
    if b { x } else { y }
}

// One of the words of a row, picked without a jump.
fn word_of(r: Row, j: u64) -> u64
    ensures { result ≡ word_of r j }
{
    let one = j % 2 < 1;
    either(j % 4 < 2, either(one, r.a, r.b), either(one, r.c, r.d))
}

// The entry of a number's last three digits.
fn entry(n: u64) -> u16
    ensures { result ≡ entry_of (n % 1000) }
{
    let m = n % 1000;
    let w = word_of(row_at(m / 20), m / 5);
    ((w >> ((4 - m % 5) * 12)) % 4096) as u16
}

// The last three digits of a number, noughts in front kept.
pub fn last_three(n: u64) -> Group
    ensures { result ≡ group_of n }
{
    let e = entry(n);
    Group {
        first: b'0' + (e / 256) as u8,
        second: b'0' + (e / 16 % 16) as u8,
        third: b'0' + (e % 16) as u8,
    }
}
