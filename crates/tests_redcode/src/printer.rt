//! The load text of codes made by hand.

use crate::expecting::expect_same;
use crate::sources::source_of;
use redcode_asm::load_text;
use std::process::Abort;
use tests_fixtures::{IMP, USUAL, dat, instruction};
use war_types::{Instr, RawSettings, Settings, Title, Warrior};

/// The load text of a warrior of this code, in a core of this size.
fn text_of(rt: &(impl Abort + AllocGlobal), core: u16, start: u16, code: &[Instr]) -> Vec<u8> {
    let settings = Settings::new(RawSettings {
        core: u32::from(core),
        length: 20,
        distance: 20,
        ..USUAL
    })
    .expect(rt, "they are settings");
    let name = Title::new(b"", "Unnamed");
    let author = Title::new(b"", "Anonymous");
    let code = Vec::from_slice(rt.alloc(), code).expect(rt, "there is memory");
    let warrior = Warrior::new(code, start, name, author, &settings).expect(rt, "it fits");
    let text = load_text(rt.alloc(), &warrior, settings.core());
    drop(warrior);
    text.expect(rt, "there is memory")
}

/// A warrior of this code has this load text, in a core of this size.
fn check_text(rt: &(impl Abort + AllocGlobal), core: u16, start: u16, code: &[Instr], want: &str) {
    let found = text_of(rt, core, start, code);
    expect_same(rt, &found.as_slice(), &want.as_bytes(), "a load text");
    drop(found);
}

/// A number of an instruction in a core is printed as this field.
fn check_folded(rt: &(impl Abort + AllocGlobal), core: u16, number: u16, field: &str) {
    let want = source_of(rt, "ORG 0\nDAT.F  $     0, $", field, 1, "\nEND\n");
    let found = text_of(rt, core, 0, &[dat(0, number)]);
    let is_due = found.as_slice() == want.as_bytes();
    drop(found);
    drop(want);
    assert!(rt; is_due, "{number} of {core}");
}

/// Cores, numbers and their fields.
const FOLDED: [(u16, u16, &str); 7] = [
    (8000, 0, "     0"),
    (8000, 3999, "  3999"),
    (8000, 4000, "  4000"),
    (8000, 4001, " -3999"),
    (8000, 7999, "    -1"),
    (65_535, 32_767, " 32767"),
    (65_535, 32_768, "-32767"),
];

#[test]
fn numbers_are_folded_above_half_the_core(rt: HostRuntime) {
    for (core, number, field) in &FOLDED {
        check_folded(&rt, *core, *number, field);
    }
}

/// Each operation, each modifier and each mode.
const NAMES: [Instr; 16] = [
    instruction!(Dat.A Immediate 1, Direct 98),
    instruction!(Mov.B AIndirect 1, BIndirect 98),
    instruction!(Add.AB APre 1, BPre 98),
    instruction!(Sub.BA APost 1, BPost 98),
    instruction!(Mul.F Direct 1, Immediate 98),
    instruction!(Div.X BIndirect 1, AIndirect 98),
    instruction!(Mdl.I BPre 1, APre 98),
    instruction!(Jmp.A BPost 1, APost 98),
    instruction!(Jmz.B Immediate 1, Immediate 98),
    instruction!(Jmn.AB Direct 1, Direct 98),
    instruction!(Djn.BA AIndirect 1, AIndirect 98),
    instruction!(Seq.F BIndirect 1, BIndirect 98),
    instruction!(Sne.X APre 1, APre 98),
    instruction!(Slt.I BPre 1, BPre 98),
    instruction!(Spl.A APost 1, APost 98),
    instruction!(Nop.B BPost 1, BPost 98),
];

/// The load text that is due for them.
const NAMES_PRINTED: &str = "ORG 15
DAT.A  #     1, $    -2
MOV.B  *     1, @    -2
ADD.AB {     1, <    -2
SUB.BA }     1, >    -2
MUL.F  $     1, #    -2
DIV.X  @     1, *    -2
MOD.I  <     1, {    -2
JMP.A  >     1, }    -2
JMZ.B  #     1, #    -2
JMN.AB $     1, $    -2
DJN.BA *     1, *    -2
SEQ.F  @     1, @    -2
SNE.X  {     1, {    -2
SLT.I  <     1, <    -2
SPL.A  }     1, }    -2
NOP.B  >     1, >    -2
END
";

#[test]
fn every_name_is_printed(rt: HostRuntime) {
    let want = "ORG 0\nMOV.I  $     0, $     1\nEND\n";
    check_text(&rt, 8000, 0, &[IMP], want);
    check_text(&rt, 100, 15, &NAMES, NAMES_PRINTED);
}
