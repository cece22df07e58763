// Registers' names read letter by letter, by a trie: from each beginning of a name, `next_node` goes on by one letter, and `register_of`
// says which register has it as its whole name. Below are instruction_set, text_names, whose names these are, and `wire_numbers`, in whose
// order the definitions list them; above is reading_operands.
// It carries the names of RULES 6.10 to 6.12, as 6.3 prints them.
#![tactic(auto)]

ghost use Rattle.std.specs.Prelude.{◌≡◌, ◌==◌, ℕ, ◌+◌, ◌≤◌, length, position};
ghost use Rattle.std.specs.List.{position_from};
ghost use Rattle.reading_names.specs.Nodes.{next_node, register_of};

use instruction_set::Register::{self, *};

// The node with one letter more, if some name begins so. A node is a beginning of a name. There are 102, by length and then by the
// alphabet: 0 is the empty one, 1 to 9 have one letter, 10 to 45 two, 46 to 83 three, 84 to 101 four. An arm has the nodes with one letter
// more than its own, which stand side by side: the first of them, and their last letters. (Each arm searches its letters by itself: with
// one search behind the match a text took 971 instructions to read, and not 890.)
#[tactic(auto, using(crate::proofs::Tables::next_in), unfolding(crate::specs::Nodes::spelt, crate::specs::Nodes::beginnings))]
pub fn next_node(node: u8, b: u8) -> Option<u8>
    ensures { result ≡ next_node node b }
{
    match node {
        0 => child(1, b"abcdefgrs", b),
        1 => child(10, b"hlx", b),
        2 => child(13, b"hlpx", b),
        3 => child(17, b"hlrsx", b),
        4 => child(22, b"hilsx", b),
        5 => child(27, b"abcds", b),
        6 => child(32, b"s", b),
        7 => child(33, b"s", b),
        8 => child(34, b"189abcdis", b),
        9 => child(43, b"ips", b),
        15 => child(46, b"l", b),
        19 => child(47, b"02348", b),
        23 => child(52, b"l", b),
        27 => child(53, b"x", b),
        28 => child(54, b"px", b),
        29 => child(56, b"x", b),
        30 => child(57, b"ix", b),
        31 => child(59, b"ip", b),
        34 => child(61, b"012345", b),
        35 => child(67, b"bdw", b),
        36 => child(70, b"bdw", b),
        37 => child(73, b"x", b),
        38 => child(74, b"px", b),
        39 => child(76, b"x", b),
        40 => child(77, b"ix", b),
        41 => child(79, b"p", b),
        42 => child(80, b"ip", b),
        43 => child(82, b"l", b),
        44 => child(83, b"l", b),
        61 => child(84, b"bdw", b),
        62 => child(87, b"bdw", b),
        63 => child(90, b"bdw", b),
        64 => child(93, b"bdw", b),
        65 => child(96, b"bdw", b),
        66 => child(99, b"bdw", b),
        _ => None,
    }
}

// Of the nodes from the first on that have these last letters, the one with the letter b.
fn child(first: u8, letters: &[u8], b: u8) -> Option<u8>
    requires { first + length letters.now ≤ 102 }
    ensures { result ≡ position_from (λ x. x == b) first letters.now }
{
    let i = place(letters, b)?;
    Some(first + i as u8)
}

// Where the letter stands among these.
fn place(letters: &[u8], b: u8) -> Option<usize>
    ensures { result ≡ position (λ x. x == b) letters.now }
{
    letters.iter().position(|letter| *letter == b)
}

// Each node with its letters: the register that they name, if they are a whole name. (Both tables go by the node's number. As one table of
// rows, each with its letters and its register, the goal `returns` of both readers stays open: a row that is copied out holds a slice of
// another type than the constant's. A map would take the heap, which is not for a library here.)
const REGISTERS: [Option<Register>; 102] = [
    None, // nothing
    None, // a
    None, // b
    None, // c
    None, // d
    None, // e
    None, // f
    None, // g
    None, // r
    None, // s
    Some(AH), // ah
    Some(AL), // al
    Some(AX), // ax
    Some(BH), // bh
    Some(BL), // bl
    Some(BP), // bp
    Some(BX), // bx
    Some(CH), // ch
    Some(CL), // cl
    None, // cr
    Some(CS), // cs
    Some(CX), // cx
    Some(DH), // dh
    Some(DI), // di
    Some(DL), // dl
    Some(DS), // ds
    Some(DX), // dx
    None, // ea
    None, // eb
    None, // ec
    None, // ed
    Some(ES), // es
    Some(FS), // fs
    Some(GS), // gs
    None, // r1
    Some(R8), // r8
    Some(R9), // r9
    None, // ra
    None, // rb
    None, // rc
    None, // rd
    None, // ri
    None, // rs
    Some(SI), // si
    Some(SP), // sp
    Some(SS), // ss
    Some(BPL), // bpl
    Some(CR0), // cr0
    Some(CR2), // cr2
    Some(CR3), // cr3
    Some(CR4), // cr4
    Some(CR8), // cr8
    Some(DIL), // dil
    Some(EAX), // eax
    Some(EBP), // ebp
    Some(EBX), // ebx
    Some(ECX), // ecx
    Some(EDI), // edi
    Some(EDX), // edx
    Some(ESI), // esi
    Some(ESP), // esp
    Some(R10), // r10
    Some(R11), // r11
    Some(R12), // r12
    Some(R13), // r13
    Some(R14), // r14
    Some(R15), // r15
    Some(R8B), // r8b
    Some(R8D), // r8d
    Some(R8W), // r8w
    Some(R9B), // r9b
    Some(R9D), // r9d
    Some(R9W), // r9w
    Some(RAX), // rax
    Some(RBP), // rbp
    Some(RBX), // rbx
    Some(RCX), // rcx
    Some(RDI), // rdi
    Some(RDX), // rdx
    Some(RIP), // rip
    Some(RSI), // rsi
    Some(RSP), // rsp
    Some(SIL), // sil
    Some(SPL), // spl
    Some(R10B), // r10b
    Some(R10D), // r10d
    Some(R10W), // r10w
    Some(R11B), // r11b
    Some(R11D), // r11d
    Some(R11W), // r11w
    Some(R12B), // r12b
    Some(R12D), // r12d
    Some(R12W), // r12w
    Some(R13B), // r13b
    Some(R13D), // r13d
    Some(R13W), // r13w
    Some(R14B), // r14b
    Some(R14D), // r14d
    Some(R14W), // r14w
    Some(R15B), // r15b
    Some(R15D), // r15d
    Some(R15W), // r15w
];

// The register whose name a node is, if it is one; none of every number past the nodes.
#[tactic(auto, using(crate::proofs::Tables::node_register, crate::proofs::Spelling::none_outside))]
pub fn register_of(node: u8) -> Option<Register>
    ensures { result ≡ register_of node }
{
    *REGISTERS.get(node as usize)?
}
