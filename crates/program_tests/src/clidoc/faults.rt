//! What is reported of bad input.
use crate::long_pages::push_between;
use crate::programs::answers;
use crate::stand_ins::scripts::front;
use std::alloc::{AllocError, Global};

// The lines that are reported, and after a line of signs the input that they are about. Another such line separates
// rows.
//
// A place counts characters, not bytes, and no carriage return before a newline. Faults come in the order of their
// places, at most 20 of them. What is not closed is reported where it begins.
const ROWS: &str = "-:2:1: duplicate key
====
name = 'app'
name = 'b'

----
-:2:9: invalid value, expected a string, number, boolean, date-time, array or inline table; a text stands in quotes
====
name = 'app'
about = x

----
-:2:11: invalid value, expected a string, number, boolean, date-time, array or inline table; a text stands in quotes
====
name = 'app'
values = [/etc, 'a']

----
-:2:9: invalid value, expected a string, number, boolean, date-time, array or inline table
====
name = 'app'
about = # It copies.
title = 'A'

----
-:2:15: unexpected key or value, expected newline, `#`
====
\u{feff}name = 'app'
about = 'é日😀' x

----
-: the input is empty
====

----
-:1:1: name is no text
====
[name]

----
-:1:1: name is empty
====
name = ''

----
-:2:1: no key lnog is known here; keys are name, section, date, vendor, title, language, words, help_option, about, header, footer, usage, command_required, option, choice, group, positional, command and topic
====
name = 'app'
lnog = 1

----
-:2:1: no key \"a\\nb\" is known here; keys are name, section, date, vendor, title, language, words, help_option, about, header, footer, usage, command_required, option, choice, group, positional, command and topic
====
name = 'app'
\"a\\nb\" = 1

----
-:2:1: positional 1: value is missing
====
name = 'app'
[[positional]]

----
-:3:1: option 1 (-vv): short is not one character; a longer name of an option goes in long, one of a command in aliases
====
name = 'app'
[[option]]
short = 'vv'

----
-:3:1: option 1 (-): short begins with -
====
name = 'app'
[[option]]
short = '-'

----
-:4:1: option 1 (--v): help is no text
====
name = 'app'
[[option]]
long = 'v'
help = 1

----
-:4:1: option 1 (--v): env is no text
-:5:1: option 1 (--v): hidden is neither true nor false
====
name = 'app'
[[option]]
long = 'v'
env = 1
hidden = 1

----
-:5:1: option 2 (--v): --v is an option already, at line 3
====
name = 'app'
[[option]]
long = 'v'
[[option]]
long = 'v'

----
-:6:1: choice 1, option 1 (--v): --v is an option already, at line 3
====
name = 'app'
[[option]]
long = 'v'
[[choice]]
[[choice.option]]
long = 'v'

----
-:7:1: group 1 (G), option 1 (-v): -v is an option already, at line 3
====
name = 'app'
[[option]]
short = 'v'
[[group]]
title = 'G'
[[group.option]]
short = 'v'

----
-:7:1: group 1 (G), command 1 (a): a is a command already, at line 3
====
name = 'app'
[[command]]
name = 'a'
[[group]]
title = 'G'
[[group.command]]
name = 'a'

----
-:6:1: command 2 (b), option 1: short, long or syntax is missing
-:7:1: command 2 (b), option 1: no key lnog is known here; is it long?
====
name = 'app'
[[command]]
name = 'a'
[[command]]
name = 'b'
[[command.option]]
lnog = 1

----
-:1:1: no key b is known here; keys are name, section, date, vendor, title, language, words, help_option, about, header, footer, usage, command_required, option, choice, group, positional, command and topic
-:1:1: name is missing
-:2:1: no key a is known here; keys are name, section, date, vendor, title, language, words, help_option, about, header, footer, usage, command_required, option, choice, group, positional, command and topic
-:3:1: option 1: short, long or syntax is missing
====
b = 1
a = 1
[[option]]

----
-:2:1: about is no text
-:3:1: option 1: short, long or syntax is missing
====
name = 'app'
about = 1
[[option]]

----
-:1:1: name is missing
-:1:1: about is no text
====
about = 1

----
-:2:1: about is no text
-:6:1: option 2 (--v): --v is an option already, at line 4
====
name = 'app'
about = 1
[[option]]
long = 'v'
[[option]]
long = 'v'

----
-:4:1: option 1 (--v): no key lnog is known here; is it long?
-:6:1: option 2 (--v): --v is an option already, at line 3
====
name = 'app'
[[option]]
long = 'v'
lnog = 1
[[option]]
long = 'v'

----
-:2:1: command 1: name is missing
-:3:1: command 1: no key lnog is known here; keys are name, short, help, hidden, aliases, about, header, footer, usage, command_required, option, choice, group, positional, command and topic
-:4:1: option 1: short, long or syntax is missing
-:5:1: option 1: no key lnog is known here; is it long?
====
name = 'app'
[[command]]
lnog = 1
[[option]]
lnog = 1

----
-:3:1: option 1 (-vv): short is not one character; a longer name of an option goes in long, one of a command in aliases
-:4:1: option 2: short, long or syntax is missing
-:5:1: option 2: no key lnog is known here; is it long?
====
name = 'app'
[[option]]
short = 'vv'
[[option]]
lnog = 1

----
-:4:1: duplicate key; [[group]] has to stand before [[group.option]]
====
name = 'app'
[[group.option]]
long = 'a'
[[group]]
title = 'G'
----
-:3:1: duplicate key; [[command]] has to stand before [command.option]
====
name = 'app'
[command.option]
[[ command ]]
name = 'a'
----
-:4:1: duplicate key
====
name = 'app'
[group]
title = 'G'
[[group]]
title = 'G'
----
-:2:9: \"\"\" is not closed
====
name = 'app'
about = \"\"\"
A \"text\" \\\"\"\" of \"\"two\"\" lines
[[option]]
long = 'a'
----
-:2:9: \" is not closed
====
name = 'app'
about = \"A
[[option]]
long = 'a'
----
-:4:16: ' is not closed
====
name = 'app'
[[option]]
long = 'a' # it's \"
values = ['x', 'y]
help = 'H'
----
-:2:9: ''' is not closed
====
name = 'app' # \"
about = '''
It's open''
----
-:4:9: [ is not closed
====
name = 'app'
about = '''It's'''''
header = \"\\\"[\" # {
usage = [ \"a]\",
  [ ']' ],

----
-:2:9: { is not closed
====
name = 'app'
words = { options = ''
----
-:4:10: unexpected key or value, expected newline, `#`
====
name = 'app'
[[option]]
long = 'a'
help = \"\"x
----
-:7:26: command 1 (b), option 1 (--c): help is no text
-:7:40: command 1 (b), option 2 (--c): --c is an option already, at line 7
-:10:1: option 2 (--a): --a is an option already, at line 3
====
name = 'app'
[[option]]
long = 'a'

[[command]]
name = 'b'
option = [ { long = 'c', help = 1 }, { long = 'c' } ]
[[option]]
short = 'd'
long = 'a'

----
-:2:1: option 1: short, long or syntax is missing
-:3:1: option 1: no key lnog is known here; is it long?
-:4:1: option 2: short, long or syntax is missing
-:5:1: option 2: no key lnog is known here; is it long?
-:6:1: option 3: short, long or syntax is missing
-:7:1: option 3: no key lnog is known here; is it long?
-:8:1: option 4: short, long or syntax is missing
-:9:1: option 4: no key lnog is known here; is it long?
-:10:1: option 5: short, long or syntax is missing
-:11:1: option 5: no key lnog is known here; is it long?
-:12:1: option 6: short, long or syntax is missing
-:13:1: option 6: no key lnog is known here; is it long?
-:14:1: option 7: short, long or syntax is missing
-:15:1: option 7: no key lnog is known here; is it long?
-:16:1: option 8: short, long or syntax is missing
-:17:1: option 8: no key lnog is known here; is it long?
-:18:1: option 9: short, long or syntax is missing
-:19:1: option 9: no key lnog is known here; is it long?
-:20:1: option 10: short, long or syntax is missing
-:21:1: option 10: no key lnog is known here; is it long?
-: and 1 more fault
====
name = 'app'
[[option]]
lnog = 1
[[option]]
lnog = 1
[[option]]
lnog = 1
[[option]]
lnog = 1
[[option]]
lnog = 1
[[option]]
lnog = 1
[[option]]
lnog = 1
[[option]]
lnog = 1
[[option]]
lnog = 1
[[option]]
lnog = 1
[[option]]
----
-:2:1: option 1: short, long or syntax is missing
-:3:1: option 1: no key lnog is known here; is it long?
-:4:1: option 2: short, long or syntax is missing
-:5:1: option 2: no key lnog is known here; is it long?
-:6:1: option 3: short, long or syntax is missing
-:7:1: option 3: no key lnog is known here; is it long?
-:8:1: option 4: short, long or syntax is missing
-:9:1: option 4: no key lnog is known here; is it long?
-:10:1: option 5: short, long or syntax is missing
-:11:1: option 5: no key lnog is known here; is it long?
-:12:1: option 6: short, long or syntax is missing
-:13:1: option 6: no key lnog is known here; is it long?
-:14:1: option 7: short, long or syntax is missing
-:15:1: option 7: no key lnog is known here; is it long?
-:16:1: option 8: short, long or syntax is missing
-:17:1: option 8: no key lnog is known here; is it long?
-:18:1: option 9: short, long or syntax is missing
-:19:1: option 9: no key lnog is known here; is it long?
-:20:1: option 10: short, long or syntax is missing
-:21:1: option 10: no key lnog is known here; is it long?
-: and 2 more faults
====
name = 'app'
[[option]]
lnog = 1
[[option]]
lnog = 1
[[option]]
lnog = 1
[[option]]
lnog = 1
[[option]]
lnog = 1
[[option]]
lnog = 1
[[option]]
lnog = 1
[[option]]
lnog = 1
[[option]]
lnog = 1
[[option]]
lnog = 1
[[option]]
lnog = 1

----
-:3:1: header is no text
====
name = 'app'\r
about = 'x'\r
header = 1\r

----
-:5:1: header is no text
====
name = 'app'\r
about = '''x\r
\r
y'''\r
header = 1\r
";

/// Whether the lines are reported.
pub fn is_said(global: Global, row: &str) -> bool {
    match row.split_once("\n====\n") {
        Some((lines, input)) => answers(global, "clidoc|full", input.as_bytes(), 1, (b"", lines)),
        None => false,
    }
}

#[test]
fn says_what_is_wrong(rt: HostRuntime) {
    for row in ROWS.split("\n----\n") {
        assert!(rt; is_said(rt.alloc(), row), "{row}");
    }
}

// Nested commands.
fn nested(global: Global, depth: usize) -> Result<String, AllocError> {
    let path = ".command".repeat(global, depth)?;
    let mut text = String::from_str(global, "name = 'app'\n")?;
    for level in 0..depth {
        let above = front(&path, level.saturating_mul(8));
        push_between(&mut text, ["[[command", "]]\nname = 'c'\n"], above)?;
    }
    Ok(text)
}

// Whether that many nested commands give this status, and this page or this line.
fn nested_answer(
    global: Global,
    depth: usize,
    status: u8,
    printed: (&[u8], &str),
) -> Result<bool, AllocError> {
    let input = nested(global, depth)?;
    Ok(answers(global, "clidoc|usage", input.as_bytes(), status, printed))
}

const TOO_DEEP: &str = "-:162:3: cannot recurse further; max recursion depth met";

#[test]
fn commands_stand_in_one_another(rt: HostRuntime) {
    let deep = nested_answer(rt.alloc(), 80, 0, (b"app COMMAND ...\n", ""));
    assert!(rt; deep.unwrap_or(false));
    let deeper = nested_answer(rt.alloc(), 81, 1, (b"", TOO_DEEP));
    assert!(rt; deeper.unwrap_or(false));
}
