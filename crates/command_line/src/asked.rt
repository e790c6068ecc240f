//! What can be asked of the program.

/// A program that is to be run, with the files and the limits of its run.
#[derive(Clone, Copy, Debug, PartialEq, Eq)]
pub struct Run<'a> {
    /// The file of the program.
    pub program: &'a str,
    /// The file of its input, if one is named.
    pub input: Option<&'a str>,
    /// The file of its schedule, if one is named.
    pub schedule: Option<&'a str>,
    /// The most steps, 0 to 1,000,000,000,000.
    pub steps: u64,
    /// The most lines that may be live, 1 to 1,048,576.
    pub capacity: u32,
}

/// A program and its schedule that are made from a seed.
#[derive(Clone, Copy, Debug, PartialEq, Eq)]
pub struct Demo {
    pub seed: u64,
    /// How large it is, 1 to 4,096.
    pub size: u32,
}

/// What the words of the command line ask for.
#[derive(Clone, Copy, Debug, PartialEq, Eq)]
pub enum Request<'a> {
    /// A program is to be run.
    Run(Run<'a>),
    /// A program is to be run, and the lines that it leaves are to be listed.
    List(Run<'a>),
    /// The source in this file is to be assembled.
    Assemble(&'a str),
    /// The program in this file is to be disassembled.
    Disassemble(&'a str),
    /// A demo is to be made, run and summed up.
    Demonstrate(Demo),
}
