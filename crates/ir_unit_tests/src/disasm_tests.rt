//! Words and their texts, put together by hand from the manual's drawings.

use ir_disasm::disassemble;

// A word, where it is, and its text.
type Row = (u32, u32, &'static str);

const TEXTS: [Row; 27] = [
    (0x00b5_0463, 0x0001_000c, "beq a0, a1, .+8 # 00010014"),
    (0xffdf_f06f, 0x0001_0000, "jal zero, .-4 # 0000fffc"),
    (0x0ff0_000f, 0x0001_0004, "fence zero, zero, 255"),
    (0x1234_6537, 0x0001_0000, "lui a0, 0x12346"),
    (0xfff5_0513, 0x0001_0000, "addi a0, a0, -1"),
    (0x0200_9093, 0x0001_0000, ".word 0x02009093"),
    (0x0000_0073, 0x0001_0008, "ecall"),
    (0x0050_0093, 0x0001_0000, "addi ra, zero, 5"),
    (0x0273_02b3, 0x0001_0000, "mul t0, t1, t2"),
    (0x0000_0000, 0x0001_0000, ".word 0x00000000"),
    (0xffff_ffff, 0x0001_0000, ".word 0xffffffff"),
    (0x0010_0073, 0x0001_0000, "ebreak"),
    (0x0000_0013, 0x0001_0000, "addi zero, zero, 0"),
    (0x0000_00ef, 0x0001_0004, "jal ra, .+0 # 00010004"),
    (0x8000_00ef, 0x0001_0000, "jal ra, .-1048576 # fff10000"),
    (0x8020_8063, 0x0001_0000, "beq ra, sp, .-4096 # 0000f000"),
    (0xffff_ff97, 0x0001_0000, "auipc t6, 0xfffff"),
    (0x0000_0fb7, 0x0001_0000, "lui t6, 0x00000"),
    (0x80a4_a023, 0x0001_0000, "sw a0, -2048(s1)"),
    (0x7ff4_c503, 0x0001_0000, "lbu a0, 2047(s1)"),
    (0xffcd_80e7, 0x0001_0000, "jalr ra, -4(s11)"),
    (0x41f3_5293, 0x0001_0000, "srai t0, t1, 31"),
    (0x8ff3_028f, 0x0001_0000, "fence t0, t1, 2303"),
    (0xfff3_3293, 0x0001_0000, "sltiu t0, t1, -1"),
    (0xff81_2283, 0x0001_0000, "lw t0, -8(sp)"),
    (0xfe51_2c23, 0x0001_0000, "sw t0, -8(sp)"),
    (0x41f5_5513, 0x0001_0000, "srai a0, a0, 31"),
];

// Each instruction but for `ecall` and `ebreak`, of the registers s0 and s1.
const INSTRUCTIONS: [Row; 46] = [
    (0xabcd_e437, 0x0001_0000, "lui s0, 0xabcde"),
    (0xabcd_e417, 0x0001_0000, "auipc s0, 0xabcde"),
    (0xffff_f46f, 0x0001_0000, "jal s0, .-2 # 0000fffe"),
    (0xff94_8467, 0x0001_0000, "jalr s0, -7(s1)"),
    (0x0094_0363, 0x0001_0000, "beq s0, s1, .+6 # 00010006"),
    (0x0094_1363, 0x0001_0000, "bne s0, s1, .+6 # 00010006"),
    (0x0094_4363, 0x0001_0000, "blt s0, s1, .+6 # 00010006"),
    (0x0094_5363, 0x0001_0000, "bge s0, s1, .+6 # 00010006"),
    (0x0094_6363, 0x0001_0000, "bltu s0, s1, .+6 # 00010006"),
    (0x0094_7363, 0x0001_0000, "bgeu s0, s1, .+6 # 00010006"),
    (0xff94_8403, 0x0001_0000, "lb s0, -7(s1)"),
    (0xff94_9403, 0x0001_0000, "lh s0, -7(s1)"),
    (0xff94_a403, 0x0001_0000, "lw s0, -7(s1)"),
    (0xff94_c403, 0x0001_0000, "lbu s0, -7(s1)"),
    (0xff94_d403, 0x0001_0000, "lhu s0, -7(s1)"),
    (0xfe84_8ca3, 0x0001_0000, "sb s0, -7(s1)"),
    (0xfe84_9ca3, 0x0001_0000, "sh s0, -7(s1)"),
    (0xfe84_aca3, 0x0001_0000, "sw s0, -7(s1)"),
    (0xff94_8413, 0x0001_0000, "addi s0, s1, -7"),
    (0xff94_a413, 0x0001_0000, "slti s0, s1, -7"),
    (0xff94_b413, 0x0001_0000, "sltiu s0, s1, -7"),
    (0xff94_c413, 0x0001_0000, "xori s0, s1, -7"),
    (0xff94_e413, 0x0001_0000, "ori s0, s1, -7"),
    (0xff94_f413, 0x0001_0000, "andi s0, s1, -7"),
    (0x0074_9413, 0x0001_0000, "slli s0, s1, 7"),
    (0x0074_d413, 0x0001_0000, "srli s0, s1, 7"),
    (0x4074_d413, 0x0001_0000, "srai s0, s1, 7"),
    (0x00a4_8433, 0x0001_0000, "add s0, s1, a0"),
    (0x40a4_8433, 0x0001_0000, "sub s0, s1, a0"),
    (0x00a4_9433, 0x0001_0000, "sll s0, s1, a0"),
    (0x00a4_a433, 0x0001_0000, "slt s0, s1, a0"),
    (0x00a4_b433, 0x0001_0000, "sltu s0, s1, a0"),
    (0x00a4_c433, 0x0001_0000, "xor s0, s1, a0"),
    (0x00a4_e433, 0x0001_0000, "or s0, s1, a0"),
    (0x00a4_f433, 0x0001_0000, "and s0, s1, a0"),
    (0x00a4_d433, 0x0001_0000, "srl s0, s1, a0"),
    (0x40a4_d433, 0x0001_0000, "sra s0, s1, a0"),
    (0x02a4_8433, 0x0001_0000, "mul s0, s1, a0"),
    (0x02a4_9433, 0x0001_0000, "mulh s0, s1, a0"),
    (0x02a4_a433, 0x0001_0000, "mulhsu s0, s1, a0"),
    (0x02a4_b433, 0x0001_0000, "mulhu s0, s1, a0"),
    (0x02a4_c433, 0x0001_0000, "div s0, s1, a0"),
    (0x02a4_d433, 0x0001_0000, "divu s0, s1, a0"),
    (0x02a4_e433, 0x0001_0000, "rem s0, s1, a0"),
    (0x02a4_f433, 0x0001_0000, "remu s0, s1, a0"),
    (0xfff4_840f, 0x0001_0000, "fence s0, s1, 4095"),
];

#[test]
fn words_and_texts(rt: HostRuntime) {
    for table in [TEXTS.as_slice(), INSTRUCTIONS.as_slice()] {
        for (word, pc, text) in table {
            let said = disassemble(rt.alloc(), *word, *pc).expect(&rt, "memory");
            assert_eq!(rt; said.as_str(), *text);
        }
    }
}
