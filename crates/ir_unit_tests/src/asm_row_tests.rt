//! Sources and what they give: each fault of a form, and the words of each form.

use crate::asm_source_tests::fault_of;
use ir_asm::assemble;
use std::alloc::Global;
use std::test::Fail;

// The cause of the first fault, its line, and the source.
const FAULTS: [(u8, usize, &str); 142] = [
    (1, 2, "nop\n\x01\n"),
    (1, 1, "nop \x7f\n"),
    (1, 1, "nop\r\r\n"),
    (1, 1, "no\rp\n"),
    (1, 1, "nop\x00"),
    (1, 1, "nop\x0b"),
    (1, 1, "9a: \x01\n"),
    (2, 1, "x\n"),
    (2, 1, "x"),
    (2, 1, "NOP\n"),
    (2, 1, ".word2 1\n"),
    (2, 2, ".data\nfoo\n"),
    (2, 1, ".Text"),
    (2, 2, "jal ra, far\nfoo\n"),
    (3, 1, "nop x\n"),
    (3, 1, "addi a0, zero\n"),
    (3, 1, "addi a0, zero, 1, 2\n"),
    (3, 1, "addi a0,, 1\n"),
    (3, 1, "addi a0, zer,\n"),
    (3, 1, "lw a0, 4\n"),
    (3, 1, "lw a0, 4(a1\n"),
    (3, 1, "lw a0, 4((a1))\n"),
    (3, 1, "lw a0, 4(a1)x\n"),
    (3, 1, "lw a0, 4(a1)(\n"),
    (3, 1, "lw zer, 4(a1)x\n"),
    (3, 1, "beq zer, a1, $x\n"),
    (3, 1, "beq zer, a1, a b\n"),
    (3, 1, ".word\n"),
    (3, 1, ".word 1,\n"),
    (3, 1, ".text x\n"),
    (3, 1, ".data x\n"),
    (3, 1, ".thread\n"),
    (3, 1, ".thread a, b\n"),
    (3, 1, ".thread $\n"),
    (3, 1, ".objects\n"),
    (3, 1, ".object 0\n"),
    (3, 2, ".objects 1\n.object 0, 1, 2, 3, 4, 5, 6, 7, 8, 9\n"),
    (3, 1, ".large x\n"),
    (3, 1, "a: .large 1\n"),
    (
        3,
        2,
        ".large\n.object 0, 1, 2, 3, 4, 5, 6, 7, 8, 9, 10, 11, 12, 13, 14, 15, 16, 17\n",
    ),
    (3, 1, ".object 0, 1, 2, 3, 4, 5, 6, 7, 8, x\n"),
    (3, 1, "fence t0\n"),
    (3, 1, "fence t0, t1\n"),
    (3, 1, "li a0\n"),
    (3, 1, "li a0, $\n"),
    (3, 1, "jal zero\n"),
    (3, 1, "ecall x"),
    (
        3,
        1,
        "beq a0, a1, aaaaaaaaaaaaaaaaaaaaaaaaaaaaaaaaaaaaaaaaaaaaaaaaaaaaaaaaaaaaaaaaa",
    ),
    (4, 1, "addi a0, zer, 2048\n"),
    (4, 1, "addi x32, zero, 0\n"),
    (4, 1, "addi x01, zero, 0\n"),
    (4, 1, "addi A0, zero, 0\n"),
    (4, 1, "lw a0, 4(zer)\n"),
    (4, 1, "lw zer, 4096(a0)\n"),
    (4, 1, "add a0, 1, 2"),
    (4, 1, "li zer, 5x\n"),
    (5, 1, "addi a0, zero, 2048\n"),
    (5, 1, "addi a0, zero, -2049\n"),
    (5, 1, "addi a0, zero, x\n"),
    (5, 1, "addi a0, zero, 0x\n"),
    (5, 1, "addi a0, zero, 0X1\n"),
    (5, 1, "addi a0, zero, +1\n"),
    (5, 1, "addi a0, zero, 00000000001\n"),
    (5, 1, "addi a0, zero, 0x000000001\n"),
    (5, 1, "addi a0, zero, --1\n"),
    (5, 1, "addi a0, zero, - 1\n"),
    (5, 1, "lw a0, 2048(zer)\n"),
    (5, 1, "lui a0, 1048576\n"),
    (5, 1, "lui a0, -1\n"),
    (5, 1, "slli a0, a0, 32\n"),
    (5, 1, "fence t0, t0, 4096\n"),
    (5, 1, "fence t0, t0, -1\n"),
    (5, 1, ".word 4294967296\n"),
    (5, 1, ".word -2147483649\n"),
    (5, 2, ".data\n.byte 256\n"),
    (5, 2, ".data\n.byte -1\n"),
    (5, 2, ".data\n.space 65537\n"),
    (5, 1, ".objects 17\n"),
    (5, 2, ".large\n.objects 65\n"),
    (5, 1, ".object 0, 1, 2, 3, 4, 5, 6, 7, x\n"),
    (5, 1, ".objects -1\n"),
    (5, 1, ".object -1, 0\n"),
    (5, 1, ".object 4294967296, 0\n"),
    (5, 1, ".thread 5\n"),
    (5, 1, ".thread .+4\n"),
    (5, 1, ".thread -a\n"),
    (5, 1, "beq a0, a1, 8\n"),
    (5, 1, "beq a0, a1, -8\n"),
    (5, 1, "beq a0, a1, .+3\n"),
    (5, 1, "beq a0, a1, .+4096\n"),
    (5, 1, "beq a0, a1, .-4098\n"),
    (5, 1, "beq a0, a1, .\n"),
    (5, 1, "beq a0, a1, .x\n"),
    (5, 1, "beq a0, a1, .+-4\n"),
    (5, 1, "jal zero, .+1048576\n"),
    (5, 1, "jal zero, .-1048578\n"),
    (5, 1, "li a0, .+4\n"),
    (5, 1, "li a0, 4294967296\n"),
    (5, 1, "li a0, -2147483649\n"),
    (5, 1, "li a0, 5x\n"),
    (6, 1, "a: a: nop\n"),
    (6, 2, "a: nop\na: x\n"),
    (6, 3, "a: nop\n.data\na: .byte 300\n"),
    (7, 1, "beq a0, a1, far\n"),
    (7, 2, "nop\nli a0, far\nbeq a0, a1, x\n"),
    (7, 1, ".thread x\nnop"),
    (9, 2, "nop\n.large\n"),
    (9, 2, "nop\n.large x\n"),
    (9, 2, ".text\n.large\n"),
    (9, 2, ".objects 1\n.large\n"),
    (9, 2, ".large\n.large\n"),
    (9, 2, ".data\n.large\nnop\n"),
    (9, 2, "nop\n.space 1\n"),
    (9, 2, "nop\nend: .thread end\n"),
    (9, 2, ".data\nnop x\n"),
    (9, 1, ".byte 1"),
    (9, 1, ".space\n"),
    (9, 1, ".byte"),
    (9, 1, "beq a0, a1, far\n.data\nfar: .byte 1\n"),
    (9, 1, ".thread d\nnop\n.data\nd: .byte 1\n"),
    (9, 1, "jal ra, far\n.data\nfar:\n"),
    (9, 1, ".thread e\nnop\ne:\n"),
    (10, 2, ".large"),
    (10, 4, "\n\n"),
    (10, 3, ".data\n.space 65536\n.byte 1\n"),
    (10, 4, ".data\n.byte 1\n"),
    (10, 3, "# only\n"),
    (10, 2, ".thread x"),
    (
        11,
        10,
        "nop\n.thread a\n.thread a\n.thread a\n.thread a\n.thread a\n.thread a\n.thread a\n.thread a\n.thread a\n",
    ),
    (11, 2, ".large\n.object 64, 1\n.objects 64\nnop\n"),
    (11, 2, "nop\n.object 0, 1\n"),
    (11, 2, ".objects 2\n.object 1, 1\n.objects 1\nnop\n"),
    (11, 1, ".object 4294967295, 1\n.objects 16\nnop\n"),
    (
        11,
        2,
        ".objects 1\n.object 1, 1\n.object 0, 1\nbeq a0, a1, x",
    ),
    (12, 2, "nop\n9a: nop\n"),
    (12, 1, ": nop\n"),
    (12, 1, "a b: nop\n"),
    (
        12,
        1,
        "aaaaaaaaaaaaaaaaaaaaaaaaaaaaaaaaaaaaaaaaaaaaaaaaaaaaaaaaaaaaaaaaa: nop\n",
    ),
    (12, 1, "a: a: 9: nop\n"),
    (12, 1, "a-b: nop\n"),
    (12, 1, "nop a: nop\n"),
    (12, 1, ".a: nop"),
];

// A source of code alone, and its words.
const WORDS: [(&str, &[u32]); 40] = [
    (
        "addi a0, zero, 72\naddi a7, zero, 2\necall\nadd a0, a0, a0\naddi a7, zero, 1\necall\n",
        &[
            0x0480_0513,
            0x0020_0893,
            0x0000_0073,
            0x00a5_0533,
            0x0010_0893,
            0x0000_0073,
        ],
    ),
    (
        "addi a0, zero, 72\naddi a7, zero, 2\necall\nadd a0, a0, a0\naddi a7, zero, 1\necall",
        &[
            0x0480_0513,
            0x0020_0893,
            0x0000_0073,
            0x00a5_0533,
            0x0010_0893,
            0x0000_0073,
        ],
    ),
    ("\n\nnop", &[0x0000_0013]),
    ("li a0, 0x12345FFF", &[0x1234_6537, 0xfff5_0513]),
    ("li a0, -1", &[0x0000_0537, 0xfff5_0513]),
    ("li a0, 0xFFFFFFFF", &[0x0000_0537, 0xfff5_0513]),
    ("li a0, 4294967295", &[0x0000_0537, 0xfff5_0513]),
    ("li t6, -2147483648", &[0x8000_0fb7, 0x000f_8f93]),
    ("li a0, 2048", &[0x0000_1537, 0x8005_0513]),
    ("li a0, x\nx:", &[0x0001_0537, 0x0085_0513]),
    (
        "fence\nfence t0, t1, 4095\necall\nebreak\nnop",
        &[
            0x0ff0_000f,
            0xfff3_028f,
            0x0000_0073,
            0x0010_0073,
            0x0000_0013,
        ],
    ),
    ("addi x31, fp, -0x800", &[0x8004_0f93]),
    (
        "lui a0, 1048575\nauipc a0, 0x0",
        &[0xffff_f537, 0x0000_0517],
    ),
    (
        "jalr ra, -4(sp)\nlw a0, 0x10(a1)\nsb a0, -1(x0)",
        &[0xffc1_00e7, 0x0105_a503, 0xfea0_0fa3],
    ),
    (
        "a:beq a0,a1,a\njal ra,b\nb:bgeu a0 , a1 ,.-8 # c: #",
        &[0x00b5_0063, 0x0040_00ef, 0xfeb5_7ce3],
    ),
    (
        "slli a0, a0, 31\nsrai a0, a0, 0\nsrli a0,a0,0x1f",
        &[0x01f5_1513, 0x4005_5513, 0x01f5_5513],
    ),
    (
        ".word -2147483648, 4294967295, 0xffffffff, 7",
        &[0x8000_0000, 0xffff_ffff, 0xffff_ffff, 0x0000_0007],
    ),
    (
        "jal zero, .+1048574\njal zero, .-1048576\nbeq a0, a1, .+4094\nbeq a0, a1, .-4096\njal zero, .+0x10",
        &[
            0x7fff_f06f,
            0x8000_006f,
            0x7eb5_0fe3,
            0x80b5_0063,
            0x0100_006f,
        ],
    ),
    ("add s11, t3, a7", &[0x011e_0db3]),
    ("sub s11, t3, a7", &[0x411e_0db3]),
    ("sll s11, t3, a7", &[0x011e_1db3]),
    ("slt s11, t3, a7", &[0x011e_2db3]),
    ("sltu s11, t3, a7", &[0x011e_3db3]),
    ("xor s11, t3, a7", &[0x011e_4db3]),
    ("or s11, t3, a7", &[0x011e_6db3]),
    ("and s11, t3, a7", &[0x011e_7db3]),
    ("srl s11, t3, a7", &[0x011e_5db3]),
    ("sra s11, t3, a7", &[0x411e_5db3]),
    ("mul s11, t3, a7", &[0x031e_0db3]),
    ("mulh s11, t3, a7", &[0x031e_1db3]),
    ("mulhsu s11, t3, a7", &[0x031e_2db3]),
    ("mulhu s11, t3, a7", &[0x031e_3db3]),
    ("div s11, t3, a7", &[0x031e_4db3]),
    ("divu s11, t3, a7", &[0x031e_5db3]),
    ("rem s11, t3, a7", &[0x031e_6db3]),
    ("remu s11, t3, a7", &[0x031e_7db3]),
    (
        "a: .data\nb: .text\nnop\nli a0, a\nli a1, b",
        &[
            0x0000_0013,
            0x0001_0537,
            0x0005_0513,
            0x0010_05b7,
            0x0005_8593,
        ],
    ),
    (" \t a :\tb\t: nop\t\r\n", &[0x0000_0013]),
    ("_a9: nop\n.thread _a9", &[0x0000_0013]),
    (
        "aaaaaaaaaaaaaaaaaaaaaaaaaaaaaaaaaaaaaaaaaaaaaaaaaaaaaaaaaaaaaaaa: nop\n.thread aaaaaaaaaaaaaaaaaaaaaaaaaaaaaaaaaaaaaaaaaaaaaaaaaaaaaaaaaaaaaaaa",
        &[0x0000_0013],
    ),
];

// A source; its entries, its data and the first two words of its last object.
type Laid = (&'static str, &'static [u32], &'static [u8], [u32; 2]);

const LAID: [Laid; 8] = [
    (
        ".data\n.byte 1\nx: .byte 2\n.text\nli a0, x",
        &[0x0001_0000],
        &[1, 2],
        [0, 0],
    ),
    (
        ".data\n.byte 1, 255\n.word 258\n.space 2\n.byte 9\n.text\nnop",
        &[0x0001_0000],
        &[1, 255, 2, 1, 0, 0, 0, 0, 9],
        [0, 0],
    ),
    (
        "nop\na: nop\n.thread a\n.thread b\nb: nop",
        &[0x0001_0004, 0x0001_0008],
        &[],
        [0, 0],
    ),
    (
        ".object 1, 5, -1\n.objects 1\n.objects 2\nnop",
        &[0x0001_0000],
        &[],
        [5, 0xffff_ffff],
    ),
    (
        ".objects 1\n.object 0, 1, 2\n.object 0, 3\nnop",
        &[0x0001_0000],
        &[],
        [3, 0],
    ),
    (
        ".objects 1\n.object 0, 1, 2, 3, 4, 5, 6, 7, 8\nnop",
        &[0x0001_0000],
        &[],
        [1, 2],
    ),
    (
        "nop\n.thread a\n.thread a\n.thread a\n.thread a\n.thread a\n.thread a\n.thread a\n.thread a\na: nop",
        &[
            0x0001_0004,
            0x0001_0004,
            0x0001_0004,
            0x0001_0004,
            0x0001_0004,
            0x0001_0004,
            0x0001_0004,
            0x0001_0004,
        ],
        &[],
        [0, 0],
    ),
    (".objects 16\nnop", &[0x0001_0000], &[], [0, 0]),
];

#[test]
fn each_fault_is_named(rt: HostRuntime) {
    for (cause, line, source) in &FAULTS {
        assert_eq!(rt; fault_of(rt.alloc(), source), (*line, *cause), "{source}");
    }
}

// Whether the source is one of code alone, and of these words.
fn has_words(alloc: Global, source: &str, words: &[u32]) -> Result<bool, Fail> {
    let image = assemble(alloc, source)?;
    let alone = image.bytes().is_empty() && image.words().is_empty();
    let at_start = image.entries() == [0x0001_0000].as_slice();
    Ok(alone && at_start && image.code().words() == words)
}

#[test]
fn each_form_has_its_words(rt: HostRuntime) -> Result<(), Fail> {
    for (source, words) in &WORDS {
        assert!(rt; has_words(rt.alloc(), source, words)?, "{source}");
    }
    Ok(())
}

// The first two words of the last object; zeros where there is none.
fn of_the_last(objects: &[u32]) -> [u32; 2] {
    let last = objects.len().saturating_sub(8);
    match objects.get(last..) {
        Some([one, other, ..]) => [*one, *other],
        _ => [0, 0],
    }
}

// Whether the source has these entries, this data, and these first words of its last object.
fn is_laid(
    alloc: Global,
    source: &str,
    entries: &[u32],
    bytes: &[u8],
    object: [u32; 2],
) -> Result<bool, Fail> {
    let image = assemble(alloc, source)?;
    let placed = image.entries() == entries && image.bytes() == bytes;
    Ok(placed && of_the_last(image.words()) == object)
}

#[test]
fn entries_data_and_objects_are_laid(rt: HostRuntime) -> Result<(), Fail> {
    for (source, entries, bytes, object) in &LAID {
        assert!(rt;
            is_laid(rt.alloc(), source, entries, bytes, *object)?,
            "{source}"
        );
    }
    Ok(())
}
