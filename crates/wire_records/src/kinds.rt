// What a record asks for, by the number in its first word (docs/FORMAT.md). A number is looked up once, where its header is decoded.
ghost use Rattle.std.specs.Prelude.{◌≡◌, get_or};
ghost use Rattle.wire_records.specs.declared.kinds.Kind.TheVariants.{Unknown};
ghost use Rattle.wire_records.specs.Kinds.{kind_at};

// The tabled calls, carried out by calls::perform.
#[derive(Clone, Copy)]
pub enum CallKind {
    ReadOperand,
    WriteOperand,
    EffectiveAddress,
    Push,
    Pop,
    ReadMemory,
    WriteMemory,
    TestFlag,
    SetFlag,
    ComputeFlags,
    Arithmetic,
    ComputeSizedFlags,
}

// What is asked of an arguments record.
#[derive(Clone, Copy)]
pub enum AccessKind {
    SelectSize,
    OneArgument,
    TwoArguments,
}

// The page view, the shows, the load and the report: they leave the machine and the count of slots.
#[derive(Clone, Copy)]
pub enum ShowKind {
    PageView,
    Load,
    ShowMachine,
    ShowDirectory,
    ShowBytes,
    Report,
}

// The texts, each written into a lent buffer.
#[derive(Clone, Copy)]
pub enum TextKind {
    OperandText,
    ArgumentsText,
    StateText,
    EventText,
    PlainText,
    RegisterText,
}

// What a record asks for; a number that names nothing is unknown: a case like the others, and no absence, for each match says what such a
// record is.
#[derive(Clone, Copy, Default)]
pub enum Kind {
    #[default]
    Unknown,
    Call(CallKind),
    ReadByte,
    Access(AccessKind),
    Show(ShowKind),
    Text(TextKind),
    Reset,
    ReadBack,
    Depends,
}

// The kinds from number 0 on, as `kinds` of specs/Kinds.antt has them, line by line.
const KINDS: [Kind; 42] = [
    Kind::Unknown, // 0
    Kind::Call(CallKind::ReadOperand), // 1
    Kind::Call(CallKind::WriteOperand), // 2
    Kind::Call(CallKind::EffectiveAddress), // 3
    Kind::Call(CallKind::Push), // 4
    Kind::Call(CallKind::Pop), // 5
    Kind::Call(CallKind::ReadMemory), // 6
    Kind::Call(CallKind::WriteMemory), // 7
    Kind::Call(CallKind::TestFlag), // 8
    Kind::Call(CallKind::SetFlag), // 9
    Kind::Call(CallKind::ComputeFlags), // 10
    Kind::ReadByte, // 11
    Kind::Call(CallKind::Arithmetic), // 12
    Kind::Call(CallKind::ComputeSizedFlags), // 13
    Kind::Unknown, // 14
    Kind::Unknown, // 15
    Kind::Access(AccessKind::SelectSize), // 16
    Kind::Access(AccessKind::OneArgument), // 17
    Kind::Access(AccessKind::TwoArguments), // 18
    Kind::Unknown, // 19
    Kind::Show(ShowKind::PageView), // 20
    Kind::Unknown, // 21
    Kind::Unknown, // 22
    Kind::Unknown, // 23
    Kind::Reset, // 24
    Kind::Show(ShowKind::Load), // 25
    Kind::Show(ShowKind::ShowMachine), // 26
    Kind::Show(ShowKind::ShowDirectory), // 27
    Kind::Show(ShowKind::ShowBytes), // 28
    Kind::Unknown, // 29
    Kind::Unknown, // 30
    Kind::Unknown, // 31
    Kind::Text(TextKind::OperandText), // 32
    Kind::Text(TextKind::ArgumentsText), // 33
    Kind::Text(TextKind::StateText), // 34
    Kind::Text(TextKind::EventText), // 35
    Kind::Text(TextKind::PlainText), // 36
    Kind::Text(TextKind::RegisterText), // 37
    Kind::ReadBack, // 38
    Kind::Unknown, // 39
    Kind::Show(ShowKind::Report), // 40
    Kind::Depends, // 41
];

// What stands at a number; unknown from the list's end on.
#[tactic(auto, using(std::proofs::lemmas::Option::gets))]
fn kind_among(kinds: &[Kind], number: u64) -> Kind
    ensures { result ≡ get_or kinds.now number Unknown }
{
    kinds.get(number as usize).copied().unwrap_or(Kind::Unknown)
}

// The kind of a number.
#[tactic(auto, unfolding(crate::specs::Kinds::kind_at))]
pub fn kind_at(number: u64) -> Kind
    ensures { result ≡ kind_at number }
{
    kind_among(&KINDS, number)
}
