// Expressions and items, by number: the parts of a node have lesser numbers.
use gw_base::Text;
use vtl_words::names::Names;
use vtl_words::operators::Operator;

/// A binary operator and the operand behind it.
#[derive(Drop)]
pub struct Link {
    pub operator: Operator,
    pub operand: usize,
}

/// A key of a map literal and its value.
#[derive(Drop)]
pub struct Pair {
    pub key: usize,
    pub value: usize,
}

/// A step of a reference.
#[derive(Drop)]
pub enum Step {
    /// `.name`.
    Member(Text),
    /// `.name(arguments)`.
    Call(Text, Vec<usize>),
    /// `[index]`.
    Index(usize),
}

/// A part of a double-quoted string.
#[derive(Drop)]
pub enum Part {
    Bytes(Text),
    /// A reference: its source text, which is empty where it is quiet, its name and its steps.
    Printed(Text, Text, Vec<Step>),
}

/// An expression.
#[derive(Drop)]
pub enum ExprNode {
    Whole(i64),
    Boolean(bool),
    /// A single-quoted string.
    Text(Text),
    /// A double-quoted string.
    Joined(Vec<Part>),
    /// `!` and `not`.
    Negated(usize),
    /// The first operand, and each further one with the operator before it, all of one rank.
    Chain(usize, Vec<Link>),
    List(Vec<usize>),
    Range(usize, usize),
    Map(Vec<Pair>),
    /// A reference: its name and its steps.
    Reference(Text, Vec<Step>),
}

/// What a `#set` writes.
#[derive(Drop)]
pub enum Target {
    Variable(Text),
    /// A path of names below `$context`.
    Context(Vec<Text>),
}

/// A branch of an `#if`: its condition and its items.
#[derive(Drop)]
pub struct Branch {
    pub condition: usize,
    pub items: Vec<usize>,
}

/// An item of a template.
#[derive(Drop)]
pub enum ItemNode {
    Text(Text),
    Comment,
    /// A reference: its source text, which is empty where it is quiet, its name and its steps.
    Output(Text, Text, Vec<Step>),
    Set(Target, usize),
    /// The branches with a condition, and what stands behind `#else`.
    If(Vec<Branch>, Vec<usize>),
    /// The loop variable, the list, and the body.
    ForEach(Text, usize, Vec<usize>),
    Break,
    Stop,
    /// A macro's name, its parameters and its body.
    Define(Text, Names, Vec<usize>),
    /// A macro's call: how many bytes stand from its `#` to the end of the text, its name, and its arguments.
    MacroCall(usize, Text, Vec<usize>),
}
