// The registers' names, as they stand in operands and in the lines of the state: one writer, `put_name`. Below are instruction_set, whose
// registers are named, and `text_pieces`; above are text_operands, text_state and reading_names.
// It carries the names of RULES 6.3, in the texts of 6.5 and 6.7.
#![tactic(auto)]

ghost use Rattle.std.specs.Prelude.{◌≡◌};
ghost use Rattle.text_names.specs.Names.{name_of};
ghost use Rattle.text_pieces.specs.Put.{TextPut};

use instruction_set::Register;
use text_pieces::put_bytes;

// The names in the registers' order (RULES 2.4), each in four bytes, spaces after it. A `match` with a text for each register was tried:
// it proves, and takes 18 % more time over a state's text. A table of texts (`[&str; 80]`) was tried: it is not proved.
const NAMES: [[u8; 4]; 80] = [
    *b"rax ", *b"rbx ", *b"rcx ", *b"rdx ", *b"rsp ", *b"rbp ", *b"rsi ", *b"rdi ", *b"r8  ",
    *b"r9  ", *b"r10 ", *b"r11 ", *b"r12 ", *b"r13 ", *b"r14 ", *b"r15 ", *b"rip ", *b"cr0 ",
    *b"cr2 ", *b"cr3 ", *b"cr4 ", *b"cr8 ", *b"eax ", *b"ebx ", *b"ecx ", *b"edx ", *b"esp ",
    *b"ebp ", *b"esi ", *b"edi ", *b"r8d ", *b"r9d ", *b"r10d", *b"r11d", *b"r12d", *b"r13d",
    *b"r14d", *b"r15d", *b"ax  ", *b"cx  ", *b"dx  ", *b"bx  ", *b"sp  ", *b"bp  ", *b"si  ",
    *b"di  ", *b"r8w ", *b"r9w ", *b"r10w", *b"r11w", *b"r12w", *b"r13w", *b"r14w", *b"r15w",
    *b"al  ", *b"cl  ", *b"dl  ", *b"bl  ", *b"ah  ", *b"ch  ", *b"dh  ", *b"bh  ", *b"spl ",
    *b"bpl ", *b"sil ", *b"dil ", *b"r8b ", *b"r9b ", *b"r10b", *b"r11b", *b"r12b", *b"r13b",
    *b"r14b", *b"r15b", *b"es  ", *b"cs  ", *b"ss  ", *b"ds  ", *b"fs  ", *b"gs  ",
];

// A register's name in lowercase, without its `%` (RULES 6.3), from `at` on; answers the offset after it.
pub fn put_name(out: &mut [u8], at: usize, register: Register) -> usize
    ensures { TextPut 4 out.old at (name_of register) out.new result }
{
    put_bytes(out, at, NAMES[register as usize].trim_ascii_end())
}
