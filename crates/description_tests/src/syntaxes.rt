//! Options that are written by a syntax: their faults, and names that are taken.

// What is reported of a syntax, and syntaxes that are read.
pub const FAULTS: &str = r#"
[[option]]
syntax = '-v'
short = 'v'
=> option 1 (-v): syntax stands beside short

[[option]]
syntax = '-v'
long = 'verbose'
=> option 1 (--verbose): syntax stands beside long

[[option]]
syntax = '-v'
short = 'v'
long = 'verbose'
=> option 1 (--verbose): syntax stands beside short

[[choice]]
[[choice.option]]
syntax = '-o'
value = 'FILE'
=> choice 1, option 1 (-o): syntax stands beside value

[[option]]
help = 'x'
=> option 1: short, long or syntax is missing

[[option]]
syntax = ['-a']
=> option 1: syntax is no text

[[option]]
syntax = ''
=> option 1: syntax is empty

[[option]]
syntax = ' '
=> option 1: syntax is blank

[[option]]
syntax = "\u3000 "
=> option 1: syntax is blank

[[option]]
syntax = '-a, 　'
=> option 1 (-a, 　): syntax holds an empty piece

[[option]]
syntax = '-a,'
=> option 1 (-a,): syntax holds an empty piece

[[option]]
syntax = ', -a'
=> option 1 (, -a): syntax holds an empty piece

[[option]]
syntax = '-a,, -b'
=> option 1 (-a,, -b): syntax holds an empty piece

[[option]]
syntax = '-a, , -b'
=> option 1 (-a, , -b): syntax holds an empty piece

[[option]]
syntax = '-a[,]'
=> read

[[option]]
syntax = '-a[X'
=> option 1 (-a[X): syntax holds a bracket that is in no pair

[[option]]
syntax = '-a X]'
=> option 1 (-a X]): syntax holds a bracket that is in no pair

[[option]]
syntax = '-a[X)'
=> option 1 (-a[X)): syntax holds a bracket that is in no pair

[[option]]
syntax = '-a ([)]'
=> option 1 (-a ([)]): syntax holds a bracket that is in no pair

[[option]]
syntax = '-a ]X['
=> option 1 (-a ]X[): syntax holds a bracket that is in no pair

[[option]]
syntax = '-a ([{<X>}])'
=> read

[[option]]
syntax = "-a\tX"
=> option 1 ("-a\tX"): syntax holds a control character

[[option]]
syntax = "-a\nX"
=> option 1 ("-a\nX"): syntax holds a control character

[[option]]
syntax = "-a\u001b[m"
=> option 1 ("-a\u{1b}[m"): syntax holds a control character

[[help_option]]
syntax = "-a\uffff"
=> help_option 1 ("-a\u{ffff}"): syntax holds a noncharacter

# In the order of keys `syntax` stands between `long` and `value`.
[[option]]
syntax = ''
long = ''
=> option 1: long is empty
option 1: syntax is empty

[[option]]
syntax = ''
value = ''
=> option 1: syntax is empty
option 1: value is empty

[[option]]
syntax = '-a X'
default = 'x'
=> read

[[option]]
syntax = '-a X'
values = ['x']
=> read

[[option]]
syntax = '-a X'
default = 'x'
required = true
=> option 1 (-a X): required is true beside a default

[[option]]
syntx = '-a'
=> option 1: no key syntx is known here; is it syntax?
option 1: short, long or syntax is missing

[[positional]]
value = 'V'
syntax = 'V'
=> positional 1 (V): no key syntax is known here; keys are value, default, values, hint, help, hidden, required, repeated and strict
"#;

// Names that are taken, and names that are not.
pub const TAKEN: &str = r#"
[[option]]
syntax = '-v, --verbose'
[[option]]
short = 'v'
=> option 2 (-v): -v is an option already

[[option]]
long = 'verbose'
[[option]]
syntax = '-v, --verbose=N'
=> option 2 (-v, --verbose=N): --verbose is an option already

[[option]]
long = 'edit'
[[option]]
syntax = '--[no-]edit'
=> option 2 (--[no-]edit): --edit is an option already

[[option]]
syntax = '--[no-]edit'
[[option]]
long = 'no-edit'
=> read

[[option]]
syntax = '-vf'
[[option]]
syntax = '--vf'
[[option]]
short = 'v'
=> read

[[option]]
syntax = '-vf'
[[option]]
syntax = 'X|-vf'
=> option 2 (X|-vf): -vf is an option already

# One may stand twice in one syntax, and what stands in brackets does not count.
[[option]]
syntax = '-v | -v N'
=> read

[[option]]
syntax = '-a [-b] (-c)'
[[option]]
syntax = '-b {-a}'
[[option]]
short = 'c'
=> read

# Directly after another byte stands no name.
[[option]]
syntax = 'x-a'
[[option]]
syntax = 'y=-a'
[[option]]
short = 'a'
=> read

[[group]]
title = 'G'
[[group.choice]]
[[group.choice.option]]
syntax = '-a'
[[group.option]]
syntax = '-a X'
hidden = true
=> group 1 (G), choice 1, option 1 (-a): -a is an option already
"#;
