/// What is at fault in a file that reads and isn't well formed.
#[derive(Clone, Copy, Debug, PartialEq, Eq)]
pub enum FileKind {
    /// The version is none of the language, or it doesn't have a command that stands there.
    Version,
    /// A logic variable is declared twice, two procedures have one name, or a name is declared
    /// twice among the parameters, results and locals of a procedure.
    Twice,
    /// A variable isn't declared, or there is no procedure of the name that is called.
    Unknown,
    /// A part has the wrong sort or number, or a `local` another sort than in the procedure.
    Sort,
    /// A parameter is assigned, takes the result of a call, or is a local.
    Constant,
    /// The results of a call repeat, or one of them stands in its arguments.
    Results,
    /// The requires has a program variable that isn't a parameter, or the ensures has one that is
    /// neither a parameter nor a result.
    Scope,
    /// A step names no rule of the version.
    Rule,
    /// The number of a step isn't its place in its proof, counted from 1.
    Number,
}
