//! What is reported of texts and names that no description holds, and that others are read.

// A description, and what is reported of it.
pub const TEXTS: &str = r#"
name = 'a'
about = "\u0000"
=> about holds a control character

name = 'a'
header = "a\u001b[1mb"
=> header holds a control character

name = 'a'
footer = "a\rb"
=> footer holds a control character

name = 'a'
usage = "\u007f"
=> usage holds a control character

name = 'a'
about = "\u009f"
=> about holds a control character

name = 'a'
about = "\ufdd0"
=> about holds a noncharacter

name = 'a'
about = "\ufdef"
=> about holds a noncharacter

name = 'a'
about = "\ufffe"
=> about holds a noncharacter

name = 'a'
about = "\uffff"
=> about holds a noncharacter

name = 'a'
about = "\U0010fffe"
=> about holds a noncharacter

name = 'a'
about = "\U0001ffff"
=> about holds a noncharacter

name = 'a'
[[option]]
short = 'a'
[[option]]
short = 'b'
help = "\u0007"
=> option 2 (-b): help holds a control character

name = 'a'
[[help_option]]
short = 'a'
help = "\u0007"
=> help_option 1 (-a): help holds a control character

name = 'a'
[[choice]]
[[choice.option]]
short = 'b'
help = "\u0007"
=> choice 1, option 1 (-b): help holds a control character

name = 'a'
[[positional]]
value = 'A'
help = "\u0007"
=> positional 1 (A): help holds a control character

name = 'a'
[[command]]
name = 'b'
help = "\u0007"
=> command 1 (b): help holds a control character

# Each key at fault, in the order of keys; of a text the first character.
name = 'a'
usage = "\u0007"
about = "\uffff\u0007"
=> about holds a noncharacter
usage holds a control character

# A name that stands twice is told after the keys of its level, and before the tables inside.
name = 'a'
about = "\u0007"
[[option]]
short = 'b'
[[option]]
short = 'b'
=> about holds a control character
option 2 (-b): -b is an option already

name = 'a'
[[option]]
short = 'b'
help = "\u0007"
[[option]]
short = 'b'
=> option 2 (-b): -b is an option already
option 1 (-b): help holds a control character

name = 'a'
about = "a\n\tb"
=> read

name = 'a'
about = "\u202e\u00a0\ufdcf\ufdf0\ufffd\u0085"
=> about holds a control character
"#;

pub const LINES: &str = r#"
name = 'a'
[[option]]
short = 'b'
value = ''
=> option 1 (-b): value is empty

name = 'a'
[[option]]
short = 'b'
value = "A\tB"
=> option 1 (-b): value holds a control character

name = 'a'
[[positional]]
value = "A\nB"
=> positional 1 ("A\nB"): value holds a control character

name = 'a'
[[positional]]
value = ''
=> positional 1: value is empty

name = 'a'
[[positional]]
value = "\ufffe"
=> positional 1 ("\u{fffe}"): value holds a noncharacter

name = 'a'
[[option]]
short = 'b'
value = "A\u2066B"
=> option 1 (-b): value holds an invisible character

name = 'a'
[[positional]]
value = "A\u200c\u200d\u200e\u200f"
default = "\u200b\u202e"
=> read

name = 'a'
[[positional]]
value = 'A "B\'
=> read

name = 'a'
date = "a\nb"
=> date holds a control character

name = 'a'
date = 'a\b'
=> date holds a backslash

name = 'a'
vendor = 'a "b"'
=> vendor holds a double quote

name = 'a'
vendor = "a\tb"
=> vendor holds a control character

name = 'a'
title = '\V[HOME]'
=> title holds a backslash

name = 'a'
title = "\uffff"
=> title holds a noncharacter

name = 'a'
title = "a\u202eb"
=> title holds an invisible character

name = 'a'
date = "\ufeff"
=> date holds an invisible character

name = 'a'
vendor = "\u206f"
=> vendor holds an invisible character

name = 'a'
vendor = "\u205f\u2070\ufefe\ufefd\u2029\u202f\U000dfffd\U000e1000\u27ff\u2801\ufff8\ufffc"
=> vendor holds an invisible character

name = 'a'
vendor = "\u205f\u2070\ufefe\ufefd\u2029\u202f\U000dfffd\U000e1000\u27ff\u2801\ufffc"
=> read

name = 'a'
vendor = "\u2764\ufe0f\u845b\U000e0100\u1820\u180b"
=> read

name = 'a'
title = "\u3164"
=> title holds an invisible character

name = 'a'
[[option]]
short = 'b'
value = "A\u00ad"
=> option 1 (-b): value holds an invisible character

name = 'a'
title = ''
vendor = "a's"
date = ''
=> read

name = 'a'
[[group]]
title = "a\nb"
=> group 1 ("a\nb"): title holds a control character
group 1 ("a\nb"): option, choice, positional or command is missing

name = 'a'
[[group]]
title = 'a\b'
=> group 1 (a\b): title holds a backslash
group 1 (a\b): option, choice, positional or command is missing

name = 'a'
[[group]]
title = '"'
=> group 1 ("): title holds a double quote
group 1 ("): option, choice, positional or command is missing

name = 'a'
[[group]]
title = ''
=> group 1: title is empty
group 1: option, choice, positional or command is missing

name = 'a'
[[group]]
title = ':'
=> group 1 (:): title is empty
group 1 (:): option, choice, positional or command is missing

name = 'a'
[[group]]
title = " \u00a0\u3000"
=> group 1: title begins with a blank
group 1: option, choice, positional or command is missing

name = 'a'
[[group]]
title = "\u3000T"
=> group 1 (　T): title begins with a blank
group 1 (　T): option, choice, positional or command is missing

name = 'a'
[[group]]
title = "T\u00a0"
=> group 1 (T ): title ends with a blank
group 1 (T ): option, choice, positional or command is missing

# A blank before the colon stands at no end.
name = 'a'
[[group]]
title = 'T :'
[[group.option]]
short = 'b'
=> read

name = 'a'
[[group]]
title = 'G'
=> group 1 (G): option, choice, positional or command is missing

name = 'a'
[[group]]
=> group 1: title is missing
group 1: option, choice, positional or command is missing

name = 'a'
[[group]]
title = 1
=> group 1: title is no text
group 1: option, choice, positional or command is missing

name = 'a'
date = 2026-11-26
=> read

name = 'a'
language = 'pt-BR'
=> read

name = 'a'
language = ''
=> language is no tag of a language

name = 'a'
language = 'e n'
=> language is no tag of a language

name = 'a'
language = "\u00e9"
=> language is no tag of a language

name = 'a'
language = "e\nn"
=> language holds a control character

name = 'a'
language = 1
=> language is no text

name = 'a'
title = 1
language = 1
about = 1
=> title is no text
language is no text
about is no text

name = 'a'
language = 1
about = 1
=> language is no text
about is no text
"#;

pub const SECTIONS: &str = r#"
section = 0
=> read

section = 1
=> read

section = 9
=> read

section = 10
=> section is no number from 0 to 9

section = -1
=> section is no number from 0 to 9

section = 1.0
=> section is no text and no number

section = true
=> section is no text and no number

section = '1'
=> read

section = '3posix2X'
=> read

section = 'n'
=> read

section = 'lx'
=> read

section = ''
=> section is no section of a manual

section = 'm'
=> section is no section of a manual

section = 'N'
=> section is no section of a manual

section = '1 '
=> section is no section of a manual

section = '1é'
=> section is no section of a manual

section = "1\n"
=> section holds a control character

section = '1\'
=> section is no section of a manual
"#;

pub const TOPICS: &str = r#"
name = 'a'
[[topic]]
title = 'T'
text = 't'
=> read

name = 'a'
[[topic]]
text = 't'
=> topic 1: title is missing

name = 'a'
[[topic]]
title = 'T'
text = 't'
[[topic]]
title = 'T'
=> topic 2 (T): text is missing

name = 'a'
[[topic]]
title = " \u00a0"
text = 't'
=> topic 1: title begins with a blank

name = 'a'
[[topic]]
title = "T\n"
text = 't'
=> topic 1 ("T\n"): title holds a control character

name = 'a'
[[topic]]
title = 'a\b'
text = 't'
=> topic 1 (a\b): title holds a backslash

name = 'a'
[[topic]]
title = '"'
text = 't'
=> topic 1 ("): title holds a double quote

name = 'a'
[[topic]]
title = 'T'
text = ''
=> topic 1 (T): text is empty

name = 'a'
[[topic]]
title = 'T'
text = "\u001b"
=> topic 1 (T): text holds a control character

name = 'a'
[[topic]]
title = 'T'
text = "\n\t"
=> topic 1 (T): text is empty

name = 'a'
[[topic]]
title = 'T'
text = ' '
=> topic 1 (T): text is empty

# A fence without lines is no block.
name = 'a'
[[topic]]
title = 'T'
text = "\n```sh\n```"
=> topic 1 (T): text is empty

name = 'a'
[[topic]]
title = 'T'
text = "```\n\n"
=> read

name = 'a'
[[topic]]
titel = 'T'
text = 't'
=> topic 1: no key titel is known here; is it title?
topic 1: title is missing

name = 'a'
topic = 1
=> topic is no array of tables

# Topics are told after all else of their level.
name = 'a'
[[topic]]
title = 'T'
[[command]]
name = 'b'
[[command.topic]]
title = ''
=> command 1 (b), topic 1: title is empty
command 1 (b), topic 1: text is missing
topic 1 (T): text is missing

name = 'a'
[[topic]]
title = 'T'
[[option]]
short = 'b'
[[option]]
short = 'b'
=> option 2 (-b): -b is an option already
topic 1 (T): text is missing

# A group has none.
name = 'a'
[[group]]
title = 'G'
[[group.topic]]
title = 'T'
text = 't'
=> group 1 (G): no key topic is known here; keys are title, option, choice, positional and command
group 1 (G): option, choice, positional or command is missing
"#;

pub const NAMES: &str = r#"
name = ''
=> name is empty

name = 'a b'
=> name holds a blank

name = "a\tb"
=> name holds a blank

name = "a\u00a0"
=> name holds a blank

name = "a\u0007"
=> name holds a control character

name = 'a='
=> name holds =

name = "a\ufffe"
=> name holds a noncharacter

name = 'aaaaaaaaaaaaaaaaaaaaaaaaaaaaaaaaaaaaaaaaaaaaaaaaaaaaaaaaaaaaaaaaaaaaaaaaaaaaaaaaaaaaaaaaaaaaaaaaaaaaaaaaaaaaaaaaaaaaaaaaaaaaaaaaaaaaaaaaaaaaaaaaaaaaaaaaaaaaaaaaaaaaaaaaaaaaaaaaaaaaaaaaaaaaaaaaaaaaaaaa'
=> read

name = 'aaaaaaaaaaaaaaaaaaaaaaaaaaaaaaaaaaaaaaaaaaaaaaaaaaaaaaaaaaaaaaaaaaaaaaaaaaaaaaaaaaaaaaaaaaaaaaaaaaaaaaaaaaaaaaaaaaaaaaaaaaaaaaaaaaaaaaaaaaaaaaaaaaaaaaaaaaaaaaaaaaaaaaaaaaaaaaaaaaaaaaaaaaaaaaaaaaaaaaaab'
=> name is over 200 bytes long

name = 'a'
[[option]]
short = 'b'
env = 'aaaaaaaaaaaaaaaaaaaaaaaaaaaaaaaaaaaaaaaaaaaaaaaaaaaaaaaaaaaaaaaaaaaaaaaaaaaaaaaaaaaaaaaaaaaaaaaaaaaaaaaaaaaaaaaaaaaaaaaaaaaaaaaaaaaaaaaaaaaaaaaaaaaaaaaaaaaaaaaaaaaaaaaaaaaaaaaaaaaaaaaaaaaaaaaaaaaaaaaab'
=> option 1 (-b): env is over 200 bytes long

name = 'a'
[[option]]
short = 'b'
long = 'aaaaaaaaaaaaaaaaaaaaaaaaaaaaaaaaaaaaaaaaaaaaaaaaaaaaaaaaaaaaaaaaaaaaaaaaaaaaaaaaaaaaaaaaaaaaaaaaaaaaaaaaaaaaaaaaaaaaaaaaaaaaaaaaaaaaaaaaaaaaaaaaaaaaaaaaaaaaaaaaaaaaaaaaaaaaaaaaaaaaaaaaaaaaaaaaaaaaaaaab'
=> option 1 (--aaaaaaaaaaaaaaaaaaaaaaaaaaaaaaaaaaaaaaaaaaaaaaaaaaaaaaaaaaaa..): long is over 200 bytes long

name = "a\u200b"
=> name holds an invisible character

name = "\u200cb"
=> name holds an invisible character

name = "b\u200f"
=> name holds an invisible character

name = "\U000e0061"
=> name holds an invisible character

name = "\U000e007f"
=> name holds an invisible character

name = "a\u2060"
=> name holds an invisible character

name = "\u2010\u200a"
=> name holds a blank

name = "\u2010\u2070\U000e1000"
=> read

name = "a\u00adb"
=> name holds an invisible character

name = "a\u034f"
=> name holds an invisible character

name = "\u115f"
=> name holds an invisible character

name = "\u1160"
=> name holds an invisible character

name = "\u17b5"
=> name holds an invisible character

name = "a\u180e"
=> name holds an invisible character

name = "\u3164"
=> name holds an invisible character

name = "\uffa0"
=> name holds an invisible character

name = "a\ufe0f"
=> name holds an invisible character

name = "a\ufff9"
=> name holds an invisible character

name = "\u2800"
=> name holds an invisible character

name = "a\U0001d17a"
=> name holds an invisible character

name = "a\U000e0fff"
=> name holds an invisible character

name = 'a\'
=> name holds a backslash

name = 'a"'
=> name holds a double quote

name = '-a'
=> name begins with -

name = "a's"
=> read

name = 'a'
[[command]]
name = ''
=> command 1: name is empty

name = 'a'
[[command]]
name = '-b'
=> command 1 (-b): name begins with -

name = 'a'
[[command]]
name = 'b='
=> command 1 (b=): name holds =

name = 'a'
[[command]]
name = 'b\'
=> command 1 (b\): name holds a backslash

name = 'a'
[[command]]
name = 'b"'
=> command 1 (b"): name holds a double quote

name = 'a'
[[command]]
name = 'b-'
=> read

name = 'a'
[[command]]
name = 'b'
short = '-'
=> command 1 (b): short begins with -

name = 'a'
[[command]]
name = 'b'
short = "\uffff"
=> command 1 (b): short holds a noncharacter

name = 'a'
[[command]]
name = 'b'
short = 'bb'
=> command 1 (b): short is not one character; a longer name of an option goes in long, one of a command in aliases

name = 'a'
[[option]]
long = ''
=> option 1: long is empty

name = 'a'
[[option]]
long = '-'
=> option 1 (-): long begins with -; write it without dashes

name = 'a'
[[option]]
long = '--b'
=> option 1 (--b): long begins with -; write it without dashes

name = 'a'
[[option]]
long = '-b='
=> option 1 (-b=): long holds =; write name and value as syntax

name = 'a'
[[option]]
long = 'b c'
=> option 1 (--b c): long holds a blank

name = 'a'
[[option]]
long = 'b\"'
=> read

name = 'a'
[[option]]
short = '-'
=> option 1 (-): short begins with -

name = 'a'
[[option]]
short = '='
=> option 1 (-=): short holds =

name = 'a'
[[option]]
short = ' '
=> option 1: short holds a blank

name = 'a'
[[option]]
short = "\u0007"
=> option 1 (-"\u{7}"): short holds a control character

name = 'a'
[[option]]
short = "\ufdd1"
=> option 1 (-"\u{fdd1}"): short holds a noncharacter

name = 'a'
[[option]]
short = ''
=> option 1: short is not one character; a longer name of an option goes in long, one of a command in aliases

name = 'a'
[[option]]
short = 1
=> option 1: short is no text

name = 'a'
[[option]]
short = '\'
=> read

name = 'a'
[[option]]
short = 'b'
env = ''
=> option 1 (-b): env is empty

name = 'a'
[[option]]
short = 'b'
env = 'A='
=> option 1 (-b): env holds =

name = 'a'
[[option]]
short = 'b'
env = "\ufffe"
=> option 1 (-b): env holds a noncharacter

name = 'a'
[[option]]
short = 'b'
env = '-\'
=> read

name = 'a'
[[option]]
short = 'b'
env = 1
=> option 1 (-b): env is no text

name = 1
=> name is no text
"#;

pub const TAKEN: &str = r#"
# A short name that is the name or the short name of another command, in either order, also of a group.
name = 'a'
[[command]]
name = 'b'
[[command]]
name = 'c'
short = 'b'
=> command 2 (c): b is a command already

name = 'a'
[[command]]
name = 'c'
short = 'b'
[[command]]
name = 'b'
=> command 2 (b): b is a name of a command already

name = 'a'
[[command]]
name = 'b'
short = 'x'
[[command]]
name = 'c'
short = 'x'
=> command 2 (c): x is a name of a command already

name = 'a'
[[command]]
name = 'b'
short = 'x'
[[group]]
title = 'G'
[[group.command]]
name = 'c'
short = 'x'
=> group 1 (G), command 1 (c): x is a name of a command already

name = 'a'
[[command]]
name = 'r'
[[command.command]]
name = 'b'
[[command.command]]
name = 'c'
short = 'b'
=> command 1 (r), command 2 (c): b is a command already

name = 'a'
[[command]]
name = 'b'
aliases = ['c']
[[command]]
name = 'c'
=> command 2 (c): c is a name of a command already

name = 'a'
[[command]]
name = 'b'
short = 'c'
[[command]]
name = 'd'
aliases = ['e', 'c']
=> command 2 (d): c is a name of a command already

name = 'a'
[[command]]
name = 'b'
aliases = ['c']
[[group]]
title = 'G'
[[group.command]]
name = 'd'
aliases = ['c']
=> group 1 (G), command 1 (d): c is a name of a command already

# Also where one of the two is hidden.
name = 'a'
[[command]]
name = 'b'
hidden = true
[[command]]
name = 'b'
=> command 2 (b): b is a command already

name = 'a'
[[option]]
short = 'b'
[[choice]]
[[choice.option]]
short = 'b'
hidden = true
=> choice 1, option 1 (-b): -b is an option already

# Its own name it may be, and a word of another level.
name = 'a'
[[command]]
name = 'b'
short = 'b'
=> read

name = 'a'
[[command]]
name = 'b'
short = 'x'
[[command.command]]
name = 'x'
=> read
"#;

pub const KEYS: &str = r#"
[[option]]
lnog = 1
=> option 1: no key lnog is known here; is it long?
option 1: short, long or syntax is missing

[[option]]
Long = 1
=> option 1: no key Long is known here; is it long?
option 1: short, long or syntax is missing

[[option]]
long_name = 1
=> option 1: no key long_name is known here; keys are short, long, syntax, value, default, values, hint, help, hidden, env, required and repeated
option 1: short, long or syntax is missing

[[option]]
hlp = 1
=> option 1: no key hlp is known here; is it help?
option 1: short, long or syntax is missing

[[option]]
ev = 1
=> option 1: no key ev is known here; keys are short, long, syntax, value, default, values, hint, help, hidden, env, required and repeated
option 1: short, long or syntax is missing

[[option]]
requird = 1
=> option 1: no key requird is known here; is it required?
option 1: short, long or syntax is missing

[[choice]]
[[choice.option]]
required = 1
=> choice 1, option 1: no key required is known here; keys are short, long, syntax, value, default, values, hint, help, hidden and env
choice 1, option 1: short, long or syntax is missing

[[option]]
short = 'b'
hidden = 1
=> option 1 (-b): hidden is neither true nor false

[[help_option]]
short = 'b'
hidden = true
=> help_option 1 (-b): no key hidden is known here; keys are short, long, syntax, value, default, values, hint, help, env, required and repeated

[[command]]
sort = 'a'
=> command 1: no key sort is known here; is it short?
command 1: name is missing

nmae = 1
=> no key nmae is known here; is it name?

optoin = 1
=> no key optoin is known here; is it option?

help_options = 1
=> no key help_options is known here; is it help_option?

[[option]]
defualt = 1
=> option 1: no key defualt is known here; is it default?
option 1: short, long or syntax is missing

x = 1
=> no key x is known here; keys are name, section, date, vendor, title, language, words, help_option, about, header, footer, usage, command_required, option, choice, group, positional, command and topic

'' = 1
=> no key '' is known here; keys are name, section, date, vendor, title, language, words, help_option, about, header, footer, usage, command_required, option, choice, group, positional, command and topic

aaaaaaaaaaaaaaaaaaaaaaaaaaaaaaaaa = 1
=> no key aaaaaaaaaaaaaaaaaaaaaaaaaaaaaaaaa is known here; keys are name, section, date, vendor, title, language, words, help_option, about, header, footer, usage, command_required, option, choice, group, positional, command and topic
"#;

// Keys that say something of values, and other names of commands.
pub const SAID: &str = r#"
[[option]]
long = 'b'
value = 'V'
default = 'x'
=> read

[[option]]
long = 'b'
value = 'V'
default = 12
=> read

[[option]]
long = 'b'
default = 'x'
=> option 1 (--b): default stands beside no value and no syntax; add value

[[option]]
long = 'b'
values = ['x']
=> option 1 (--b): values stands beside no value and no syntax; add value

[[option]]
long = 'b'
values = []
default = 'x'
=> option 1 (--b): default stands beside no value and no syntax; add value
option 1 (--b): values is empty

[[choice]]
[[choice.option]]
long = 'b'
default = 'x'
=> choice 1, option 1 (--b): default stands beside no value and no syntax; add value

[[help_option]]
long = 'b'
values = ['x']
=> help_option 1 (--b): values stands beside no value and no syntax; add value

[[option]]
long = 'b'
value = 'V'
default = 'x'
required = true
=> option 1 (--b): required is true beside a default

[[option]]
long = 'b'
value = 'V'
default = 'x'
required = false
repeated = true
=> read

[[option]]
long = 'b'
value = 'V'
default = 'x'
required = 1
=> option 1 (--b): required is neither true nor false

[[positional]]
value = 'V'
default = 'x'
=> read

[[positional]]
value = 'V'
default = 'x'
required = false
=> read

[[positional]]
value = 'V'
default = 'x'
required = true
=> positional 1 (V): required is true beside a default

[[positional]]
value = 'V'
values = ['x']
=> read

[[option]]
long = 'b'
value = 'V'
default = 1.0
=> option 1 (--b): default is no text and no whole number; write it in quotes

[[option]]
long = 'b'
value = 'V'
default = "a\tb"
=> option 1 (--b): default holds a control character

[[option]]
long = 'b'
value = 'V'
default = "\ufffe"
=> option 1 (--b): default holds a noncharacter

[[option]]
long = 'b'
value = 'V'
default = ''
=> read

[[option]]
long = 'b'
value = 'V'
values = []
=> option 1 (--b): values is empty

[[option]]
long = 'b'
value = 'V'
values = ['x', '']
=> option 1 (--b): values holds an empty text

[[option]]
long = 'b'
value = 'V'
values = ['x', 1]
=> option 1 (--b): values is no array of texts; write each in quotes

[[option]]
long = 'b'
value = 'V'
values = ['x', ['y']]
=> option 1 (--b): values is no array of texts

[[option]]
long = 'b'
value = 'V'
values = 'x'
=> option 1 (--b): values is no array of texts; write values = ["x"]

[[option]]
long = 'b'
value = 'V'
values = 'x, y'
=> option 1 (--b): values is no array of texts; write each in quotes, in [ ]

[[option]]
long = 'b'
value = 'V'
values = true
=> option 1 (--b): values is no array of texts

[[positional]]
value = 'V'
values = ["a\nb"]
=> positional 1 (V): values holds a control character

[[option]]
long = 'b'
value = 'V'
hint = 'file'
=> read

[[option]]
syntax = '--b[=V]'
hint = 'folder'
=> read

[[positional]]
value = 'V'
hint = 'none'
=> read

[[help_option]]
long = 'b'
value = 'V'
hint = 'user'
=> read

[[choice]]
[[choice.option]]
long = 'b'
value = 'V'
hint = 'host'
=> read

[[option]]
long = 'b'
hint = 'file'
=> option 1 (--b): hint stands beside no value and no syntax; add value

[[option]]
long = 'b'
value = 'V'
values = ['x']
hint = 'none'
=> option 1 (--b): hint stands beside values

[[option]]
long = 'b'
values = ['x']
hint = 'none'
=> option 1 (--b): values stands beside no value and no syntax; add value
option 1 (--b): hint stands beside no value and no syntax; add value

[[positional]]
value = 'V'
values = ['x']
hint = 'file'
=> positional 1 (V): hint stands beside values

[[positional]]
value = 'V'
hint = 'File'
=> positional 1 (V): no hint File is known here; is it file?

[[positional]]
value = 'V'
hint = 'fodler'
=> positional 1 (V): no hint fodler is known here; is it folder?

[[positional]]
value = 'V'
hint = 'directory'
=> positional 1 (V): no hint directory is known here; it is called folder

[[positional]]
value = 'V'
hint = ''
=> positional 1 (V): no hint '' is known here; hints are file, folder, none, user and host

[[option]]
long = 'b'
value = 'V'
hint = "file\u001b[1m"
=> option 1 (--b): no hint "file\u{1b}[1m" is known here; hints are file, folder, none, user and host

[[option]]
long = 'b'
value = 'V'
hint = ['file']
=> option 1 (--b): hint is no text

[[command]]
name = 'b'
aliases = []
=> command 1 (b): aliases is empty

[[command]]
name = 'b'
aliases = 'c'
=> command 1 (b): aliases is no array of texts; write aliases = ["c"]

[[command]]
name = 'b'
aliases = ['c', 1]
=> command 1 (b): aliases is no array of texts; write each in quotes

[[command]]
name = 'b'
aliases = ['c', '']
=> command 1 (b): aliases holds an empty text

[[command]]
name = 'b'
aliases = ['c d']
=> command 1 (b): aliases holds a blank

[[command]]
name = 'b'
aliases = ['c=']
=> command 1 (b): aliases holds =

[[command]]
name = 'b'
aliases = ['-c']
=> command 1 (b): aliases begins with -

[[command]]
name = 'b'
aliases = ['c\']
=> command 1 (b): aliases holds a backslash

[[command]]
name = 'b'
aliases = ['c"']
=> command 1 (b): aliases holds a double quote

[[command]]
name = 'b'
aliases = ['c', 'c', 'b']
=> read
"#;

// The table of fixed words.
pub const WORDS: &str = r#"
words = 1
=> words is no table

[[words]]
usage = 'U'
=> words is no table

[words]
usgae = 'U'
=> words: no key usgae is known here; is it usage?

[words]
title = 'T'
=> words: no key title is known here; keys are usage, arguments, options, commands, contents, notes, default, possible_values, env, aliases, command, name, synopsis, description and see_also

[words]
usage = 1
=> words: usage is no text

[words]
arguments = ''
=> words: arguments is empty

[words]
options = ':'
=> words: options is empty

[words]
commands = ' C'
=> words: commands begins with a blank

[words]
contents = 'C '
=> words: contents ends with a blank

[words]
notes = "N\n"
=> words: notes holds a control character

[words]
default = "\ufffe"
=> words: default holds a noncharacter

[words]
possible_values = 'a\b'
=> words: possible_values holds a backslash

[words]
env = '"'
=> words: env holds a double quote

# They are told in the order of the words, after the keys of the description.
[words]
see_also = ''
aliases = ''
=> words: aliases is empty
words: see_also is empty

[words]
name = ''
[[option]]
short = 1
=> words: name is empty
option 1: short is no text

language = 1
words = 1
=> language is no text
words is no table

words = 1
help_option = 1
=> words is no table
help_option is no array of tables

[words]
=> read
"#;

// Words that say what is meant.
pub const MEANT: &str = r#"
description = 'A'
=> no key description is known here; it is called about

version = '1'
=> no key version is known here; it is called vendor

epilog = 'A'
=> no key epilog is known here; it is called footer

arg = 'A'
=> no key arg is known here; it is called positional

[[subcommand]]
name = 'b'
=> no key subcommand is known here; it is called command

# Where a table has no such key, a near one counts.
choices = ['x']
=> no key choices is known here; is it choice?

[[option]]
short = 'b'
metavar = 'X'
=> option 1 (-b): no key metavar is known here; it is called value

[[option]]
long = 'b'
negatable = true
=> option 1 (--b): no key negatable is known here; it is called syntax

[[option]]
long = 'b'
optional_value = 'X'
=> option 1 (--b): no key optional_value is known here; it is called syntax

[[option]]
short = 'b'
choices = ['x']
description = 'x'
flags = '-b'
name = 'int'
count = true
value_hint = 'file'
=> option 1 (-b): no key choices is known here; it is called values
option 1 (-b): no key count is known here; it is called repeated
option 1 (-b): no key description is known here; it is called help
option 1 (-b): no key flags is known here; it is called syntax
option 1 (-b): no key name is known here; it is called long
option 1 (-b): no key value_hint is known here; it is called hint

[[positional]]
value = 'B'
name = 'B'
=> positional 1 (B): no key name is known here; it is called value

[[command]]
name = 'b'
alias = 'c'
subcommands = 1
summary = 'x'
=> command 1 (b): no key alias is known here; it is called aliases
command 1 (b): no key subcommands is known here; it is called command
command 1 (b): no key summary is known here; it is called about

# A key of the top that stands below a table.
[[option]]
short = 'b'
about = 'A'
=> option 1 (-b): no key about is known here; a key of the top stands before the first table

# But the title, which is more likely meant for the table.
[[choice]]
title = 'T'
[[choice.option]]
short = 'b'
=> choice 1: no key title is known here; keys are option and required

# One that is near another of its table, or that is the array of a table, is no such key.
[[option]]
short = 'b'
positional = 1
=> option 1 (-b): no key positional is known here; keys are short, long, syntax, value, default, values, hint, help, hidden, env, required and repeated

[[topic]]
title = 'T'
text = 't'
language = 'en'
=> topic 1 (T): no key language is known here; a key of the top stands before the first table

# One table where an array is wanted, and something else.
[option]
short = 1
=> option is no array of tables; write [[option]]

option = 1
=> option is no array of tables

[[command]]
name = 'b'
[command.option]
short = 'x'
=> command 1 (b): option is no array of tables; write [[command.option]]

[[group]]
title = 'G'
[[group.command]]
name = 'b'
[group.command.group]
=> group 1 (G), command 1 (b): group is no array of tables; write [[group.command.group]]

[[choice]]
[choice.option]
short = 'b'
=> choice 1: option is no array of tables; write [[choice.option]]

[[option]]
long = '--all'
=> option 1 (--all): long begins with -; write it without dashes

[[option]]
short = '-a'
=> option 1 (-a): short begins with -; write it without dashes

[[command]]
name = 'b'
short = '-a'
=> command 1 (b): short begins with -; write it without dashes

# A long word is cut, and no control character is shown.
aaaaaaaaaabbbbbbbbbbccccccccccddddddddddeeeeeeeeeeffffffffffg = 1
=> no key aaaaaaaaaabbbbbbbbbbccccccccccddddddddddeeeeeeeeeeffffffffff.. is known here; keys are name, section, date, vendor, title, language, words, help_option, about, header, footer, usage, command_required, option, choice, group, positional, command and topic

"aaaaaaaaaabbbbbbbbbbccccccccccddddddddddeeeeeeeeeefffffffff\u00e9" = 1
=> no key aaaaaaaaaabbbbbbbbbbccccccccccddddddddddeeeeeeeeeefffffffffé is known here; keys are name, section, date, vendor, title, language, words, help_option, about, header, footer, usage, command_required, option, choice, group, positional, command and topic

[words]
"\u001b[m" = 1
=> words: no key "\u{1b}[m" is known here; keys are usage, arguments, options, commands, contents, notes, default, possible_values, env, aliases, command, name, synopsis, description and see_also
"#;

// Several faults of one table, and of tables inside one that is refused.
pub const SEVERAL: &str = r#"
# Each unknown key, then each key that is wrong or missing.
title = 1
zzz = 1
yyy = 1
[[option]]
=> no key yyy is known here; keys are name, section, date, vendor, title, language, words, help_option, about, header, footer, usage, command_required, option, choice, group, positional, command and topic
no key zzz is known here; keys are name, section, date, vendor, title, language, words, help_option, about, header, footer, usage, command_required, option, choice, group, positional, command and topic
name is missing
title is no text
option 1: short, long or syntax is missing

name = 'a'
section = 10
date = 1
vendor = 1
title = 1
language = ''
words = 1
help_option = 1
about = 1
header = 1
footer = 1
usage = 1
command_required = 1
option = 1
choice = 1
group = 1
positional = 1
command = 1
topic = 1
=> section is no number from 0 to 9
date is no text and no date
vendor is no text
title is no text
language is no tag of a language
words is no table
help_option is no array of tables
about is no text
header is no text
footer is no text
usage is no text
command_required is neither true nor false
option is no array of tables
choice is no array of tables
group is no array of tables
positional is no array of tables
command is no array of tables
topic is no array of tables

name = 'a'
[[option]]
short = 1
long = 1
syntax = 1
value = 1
default = true
values = 1
hint = 1
help = 1
hidden = 1
env = 1
required = 1
repeated = 1
=> option 1: short is no text
option 1: long is no text
option 1: syntax is no text
option 1: value is no text
option 1: default is no text and no whole number; write it in quotes
option 1: values is no array of texts
option 1: hint is no text
option 1: help is no text
option 1: hidden is neither true nor false
option 1: env is no text
option 1: required is neither true nor false
option 1: repeated is neither true nor false

name = 'a'
[[positional]]
default = true
values = 1
hint = 1
help = 1
hidden = 1
required = 1
repeated = 1
strict = 1
=> positional 1: value is missing
positional 1: default is no text and no whole number; write it in quotes
positional 1: values is no array of texts
positional 1: hint is no text
positional 1: help is no text
positional 1: hidden is neither true nor false
positional 1: required is neither true nor false
positional 1: repeated is neither true nor false
positional 1: strict is neither true nor false

name = 'a'
[[command]]
short = 1
help = 1
hidden = 1
aliases = 1
about = 1
[[command.option]]
short = 1
[[command.command]]
[[command.command.topic]]
title = 'T'
=> command 1: name is missing
command 1: short is no text
command 1: help is no text
command 1: hidden is neither true nor false
command 1: aliases is no array of texts
command 1: about is no text
command 1, option 1: short is no text
command 1, command 1: name is missing
command 1, command 1, topic 1 (T): text is missing

# After a table that is refused the next ones are read, of each kind.
name = 'a'
[[help_option]]
[[help_option]]
[[choice]]
[[choice]]
[[group]]
title = 'G'
[[group.option]]
[[group.positional]]
[[group.choice]]
[[group.command]]
[[group]]
[[group.option]]
[[positional]]
[[topic]]
text = 't'
=> help_option 1: short, long or syntax is missing
help_option 2: short, long or syntax is missing
choice 1: option is missing
choice 2: option is missing
group 1 (G), option 1: short, long or syntax is missing
group 1 (G), choice 1: option is missing
group 1 (G), positional 1: value is missing
group 1 (G), command 1: name is missing
group 2: title is missing
group 2, option 1: short, long or syntax is missing
positional 1: value is missing
topic 1: title is missing

name = 'a'
[words]
usage = ''
notes = 1
aliases = 1
name = 1
=> words: usage is empty
words: notes is no text
words: aliases is no text
words: name is no text

# The tables of a description whose own keys are refused are read, its fixed words too.
[words]
usage = ''
[[help_option]]
[[option]]
=> name is missing
words: usage is empty
help_option 1: short, long or syntax is missing
option 1: short, long or syntax is missing

# The name of the top that stands below a table.
[[option]]
short = 'a'
name = 'b'
[[choice]]
name = 'c'
[[choice.option]]
short = 'd'
[[positional]]
value = 'P'
about = 'A'
=> name is missing
option 1 (-a): no key name is known here; it is called long; a key of the top stands before the first table
choice 1: no key name is known here; a key of the top stands before the first table
positional 1 (P): no key about is known here; a key of the top stands before the first table

# In a choice whose other keys are refused the options are read, and in one without options there is nothing to read.
name = 'a'
[[choice]]
required = 1
zzz = 1
[[choice.option]]
=> choice 1: no key zzz is known here; keys are option and required
choice 1: required is neither true nor false
choice 1, option 1: short, long or syntax is missing

# Of what stands in a table of the wrong kind nothing is told, and of a key one fault.
name = 'a'
[[group]]
title = 'G'
topic = 1
[group.option]
long = 1
=> group 1 (G): no key topic is known here; keys are title, option, choice, positional and command
group 1 (G): option is no array of tables; write [[group.option]]

# Each name that stands twice, of options and then of commands.
name = 'a'
[[option]]
long = 'b'
short = 'b'
[[option]]
syntax = '-b, --b'
[[option]]
long = 'b'
[[command]]
name = 'c'
aliases = ['d']
[[command]]
name = 'c'
aliases = ['d']
=> option 2 (-b, --b): -b is an option already
option 2 (-b, --b): --b is an option already
option 3 (--b): --b is an option already
command 2 (c): c is a command already
command 2 (c): d is a name of a command already

# A name that is refused stands nowhere.
name = 'a'
[[option]]
long = '-b'
[[option]]
long = '-b'
[[option]]
syntax = '--c['
[[option]]
long = 'c'
[[command]]
name = 'dd'
[[command]]
name = 'e'
short = 'dd'
=> option 1 (-b): long begins with -; write it without dashes
option 2 (-b): long begins with -; write it without dashes
option 3 (--c[): syntax holds a bracket that is in no pair
command 2 (e): short is not one character; a longer name of an option goes in long, one of a command in aliases

# The first 20 are told, and how many more there are.
name = 'a'
[[option]]
[[option]]
[[option]]
[[option]]
[[option]]
[[option]]
[[option]]
[[option]]
[[option]]
[[option]]
[[option]]
[[option]]
[[option]]
[[option]]
[[option]]
[[option]]
[[option]]
[[option]]
[[option]]
[[option]]
[[option]]
[[option]]
=> option 1: short, long or syntax is missing
option 2: short, long or syntax is missing
option 3: short, long or syntax is missing
option 4: short, long or syntax is missing
option 5: short, long or syntax is missing
option 6: short, long or syntax is missing
option 7: short, long or syntax is missing
option 8: short, long or syntax is missing
option 9: short, long or syntax is missing
option 10: short, long or syntax is missing
option 11: short, long or syntax is missing
option 12: short, long or syntax is missing
option 13: short, long or syntax is missing
option 14: short, long or syntax is missing
option 15: short, long or syntax is missing
option 16: short, long or syntax is missing
option 17: short, long or syntax is missing
option 18: short, long or syntax is missing
option 19: short, long or syntax is missing
option 20: short, long or syntax is missing
and 2 more
"#;
