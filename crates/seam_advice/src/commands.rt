// The commands, for a person who asks for them.

/// The commands of a script, a line each, and where all of them is told. It ends with a line feed.
pub const COMMANDS_TEXT: &str = "\
create E TYPE X Z      makes entity E of a type at a position
client E               gives entity E a client, which is the sender cE
call S E METHOD ARGS   the sender S, as b1 or c7, calls a method of entity E
move S E X Z           the sender S moves entity E to a position
tick                   lets the clients look while the calls are executed
cut C A AT             cuts cell C on axis A, x or z, at a place
shift B AT             moves boundary B to a place
balance                balances the boundaries when the round ends
destroy E              entity E is dead from here on
sync                   ends the round, which is printed
all of it: docs/FORMATS.md
";

/// Whether the word is the name of a command.
pub(crate) fn is_command(word: &[u8]) -> bool {
    matches!(
        word,
        b"create"
            | b"client"
            | b"call"
            | b"move"
            | b"tick"
            | b"cut"
            | b"shift"
            | b"balance"
            | b"destroy"
            | b"sync"
    )
}
