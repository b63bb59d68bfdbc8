// What an instruction does, as far as checks go: its first byte and its operands, in the groups of the instructions carried.
// Above it: `judged`. Below it: `instruction`.
use instruction::Instruction;

// Whose record: the globals', or the one that so many static links lead to.
#[derive(Clone, Copy)]
pub enum Whose {
    Globals,
    Up(u16),
}

#[derive(Clone, Copy)]
pub enum Does {
    // nothing is judged but the words taken and the room for those given
    Plain,
    // a constant of the pool
    Pool(u16),
    // so many words of the pool, from an offset on
    Constants(u16, u16),
    // a word of a record: loaded, stored, or its address
    Offset(Whose, u16),
    // a word so many words on from an address
    Index(u16),
    Store,
    Divide,
    Subrange,
    Jump(u16),
    // the bit that makes it jump, and the distance
    JumpIf(u16, u16),
    // the case table's offset in the pool
    Case(u16),
    Call(Whose, u16),
    Return(u16),
}

pub fn of(i: Instruction) -> Does {
    if i.first < 128 {
        return short(i.first);
    }
    // LDC, the one with three operands; its mode changes no check
    if i.first == 131 {
        return Does::Constants(i.y, i.z);
    }
    long(i.first, i.x, i.y)
}

// The first bytes that hold their operand: SLDL, SLDO, SLLA, SSTL, SIND; and SLDC.
fn short(first: u8) -> Does {
    match first {
        32..=47 => Does::Offset(Whose::Up(0), (first - 31) as u16),
        48..=63 => Does::Offset(Whose::Globals, (first - 47) as u16),
        96..=103 => Does::Offset(Whose::Up(0), (first - 95) as u16),
        104..=111 => Does::Offset(Whose::Up(0), (first - 103) as u16),
        120..=127 => Does::Index((first - 120) as u16),
        _ => Does::Plain,
    }
}

fn long(first: u8, x: u16, y: u16) -> Does {
    match first {
        // LCO
        130 => Does::Pool(x),
        // LLA, LDL, STL
        132 | 135 | 164 => Does::Offset(Whose::Up(0), x),
        // LDO, LAO, SRO
        133 | 134 | 165 => Does::Offset(Whose::Globals, x),
        // LDA, LOD, STR
        136 | 137 | 166 => Does::Offset(Whose::Up(x), y),
        // SLOD1, SLOD2
        173 => Does::Offset(Whose::Up(1), x),
        174 => Does::Offset(Whose::Up(2), x),
        // DVI, MODI
        141 | 143 => Does::Divide,
        // STO, CHK, IND
        196 => Does::Store,
        203 => Does::Subrange,
        230 => Does::Index(x),
        _ => going(first, x, y),
    }
}

// Jumps, calls and the return.
fn going(first: u8, x: u16, y: u16) -> Does {
    match first {
        // UJP, JPL
        138 | 139 => Does::Jump(x),
        // FJP, FJPL, TJP
        212 | 213 => Does::JumpIf(0, x),
        241 => Does::JumpIf(1, x),
        // XJP
        214 => Does::Case(x),
        // CPL, CPG, CPI, SCPI1, SCPI2
        144 => Does::Call(Whose::Up(0), x),
        145 => Does::Call(Whose::Globals, x),
        146 => Does::Call(Whose::Up(x), y),
        239 => Does::Call(Whose::Up(1), x),
        240 => Does::Call(Whose::Up(2), x),
        // RPU
        150 => Does::Return(x),
        _ => Does::Plain,
    }
}
