//! The fixed programs of the shells, in which a backquote stands for the name of what a script defines.
//!
//! None of them has its shell read a word of the data a second time: there is no `eval`, no `compgen -W`, and no text
//! of the data in the `-a` of a `complete`.

/// What stands before the data of a script for bash.
pub const BASH_HEAD: &str =
    r##"# Completions for bash 4.2 and later, which need nothing else: source this file.
#
# Each entry of the table below has four words: what it is, and three that say more:
#
#   program NAME - -          the program; options up to 'level' stand on each level
#   level - - -               the top follows, up to its 'end'
#   once HOW HINT HELP        an option that is given once; 'many': many times; 'or': in place of the one before.
#                             HOW: flag, value, word (a value that is a word of its own), optional (only after a =)
#   name NAME - -             one of its names
#   place once HINT -         a positional value, the next one; 'many': many of them; 'strict': only after --
#   among VALUE - -           one of the values that an option or a positional value may have
#   command NAME - HELP       a command; its level follows, up to its 'end'
#   alias NAME - -            another name of the command
#   end - - -                 the end of a level
#
# HINT: file, folder, user, host or none. The table is data: no word of it is expanded or run.

# Reads what is typed: the words before the cursor; 'cur', up to it, without quotes; 'kept', what of it bash leaves as
# it stands; and 'quote', the quote that is open.
_clidoc_`__read() {
    local line=${COMP_LINE:0:COMP_POINT} broken= char
    local -i i is_word=0
    for ((i = 0; i < ${#line}; i++)); do
        char=${line:i:1}
        if [[ $quote == "'" ]]; then
            if [[ $char == "'" ]]; then quote=; else cur+=$char; fi
        elif [[ $quote == '"' ]]; then
            case $char in
                '"') quote= ;;
                \\) case ${line:i+1:1} in
                        '"' | \\ | '$' | $'\140') i+=1 cur+=${line:i:1} ;;
                        *) cur+=\\ ;;
                    esac ;;
                *) cur+=$char ;;
            esac
        else
            case $char in
                "'" | '"') quote=$char kept=$cur is_word=1 ;;
                \\) i+=1 cur+=${line:i:1} is_word=1 ;;
                [[:space:]])
                    if [[ $is_word -eq 1 || -n $cur ]]; then words+=("$cur"); fi
                    cur= broken= is_word=0 ;;
                *)
                    cur+=$char
                    if [[ $COMP_WORDBREAKS == *"$char"* ]]; then broken=$cur; fi ;;
            esac
        fi
    done
    if [[ -z $quote ]]; then kept=$broken; fi
}

# Takes what stands on a level, whose entries begin at $1.
_clidoc_`__load() {
    local -i depth=0
    for ((at = $1; ; at += 4)); do
        case ${_clidoc_`__table[at]} in
            end | level)
                if ((depth == 0)); then return; fi
                depth+=-1 ;;
            command)
                if ((depth == 0)); then commands+=("${_clidoc_`__table[at+1]}") levels+=($((at + 4))); fi
                depth+=1 ;;
            alias)
                if ((depth == 1)); then commands+=("${_clidoc_`__table[at+1]}") levels+=($((at + 4))); fi ;;
            once | many | or)
                if ((depth == 0)); then _clidoc_`__take; fi ;;
            name)
                if ((depth == 0)); then names+=("${_clidoc_`__table[at+1]}") owners+=($((${#options[@]} - 1))); fi ;;
            place | strict)
                if ((depth == 0)); then places+=($at); fi ;;
        esac
    done
}

# Takes the option of the entry 'at'. Options of a choice have one number, and one that may stand many times has 0.
_clidoc_`__take() {
    if [[ ${_clidoc_`__table[at]} != or ]]; then last+=1; fi
    options+=($at)
    if [[ ${_clidoc_`__table[at]} == many ]]; then choices+=(0); else choices+=($last); fi
}

# Goes into a level, whose entries begin at $1; to the top with 0.
_clidoc_`__enter() {
    local -i at last=0 choice
    commands=() levels=() options=() choices=() names=() owners=() places=() place=0
    _clidoc_`__load 4
    for choice in "${!given[@]}"; do
        if ((choice > last)); then unset "given[$choice]"; fi
    done
    _clidoc_`__load $(($1 ? $1 : at + 4))
}

# Finds the option that has the name $1; one of this level comes before one that stands on each level.
_clidoc_`__find() {
    local -i i
    for ((i = ${#names[@]} - 1; i >= 0; i--)); do
        if [[ ${names[i]} == "$1" ]]; then
            option=${owners[i]}
            how=${_clidoc_`__table[options[option]+1]}
            return 0
        fi
    done
    return 1
}

# The options that the word $1 gives. 'option' is the last of them, and 'how' says how its value is given. If 'before'
# is not empty, the value is in the same word and follows 'before'.
_clidoc_`__give() {
    local -i i
    before=
    if [[ $1 == -*=* ]] && _clidoc_`__find "${1%%=*}"; then
        before=${1%%=*}=
        given[choices[option]]=1
        return 0
    fi
    if [[ $1 == --* ]]; then return 1; fi
    for ((i = 1; i < ${#1}; i++)); do
        if ! _clidoc_`__find "-${1:i:1}"; then return 1; fi
        given[choices[option]]=1
        if [[ $how != flag ]]; then
            if ((i + 1 < ${#1})); then before=${1:0:i+1}; fi
            return 0
        fi
    done
    return 0
}

# Passes over a word before the cursor.
_clidoc_`__pass() {
    local -i i
    if ((value_of >= 0)); then
        value_of=-1
    elif ((after_dashes)); then
        place+=1
    elif [[ $1 == -- ]]; then
        after_dashes=1
        for i in "${!places[@]}"; do
            if [[ ${_clidoc_`__table[places[i]]} == strict ]]; then
                places=("${places[@]:i}") place=0
                return
            fi
        done
    elif [[ $1 == -?* ]]; then
        if _clidoc_`__find "$1"; then
            before=
            given[choices[option]]=1
        elif ! _clidoc_`__give "$1"; then
            return
        fi
        if [[ -z $before && ( $how == value || $how == word ) ]]; then value_of=option; fi
    else
        for i in "${!commands[@]}"; do
            if [[ ${commands[i]} == "$1" ]]; then
                _clidoc_`__enter "${levels[i]}"
                return
            fi
        done
        place+=1
    fi
}

# Offers a word, if it goes on from what is typed.
_clidoc_`__offer() {
    if [[ $1 == "$cur"* ]]; then found+=("$1"); fi
}

# Offers what the names of files go on with, or of folders alone where $1 is a slash. A shell of its own finds them.
_clidoc_`__files() {
    local file typed=${cur:${#before}}
    while IFS= read -r -d '' file; do
        found+=("$before$file")
        files+=1
    done < <(
        shopt -u failglob nocaseglob
        shopt -s nullglob
        set +f
        GLOBIGNORE=
        front= tilde=
        if [[ $typed == '~/'* ]]; then front=$HOME tilde='~' typed=${typed:1}; fi
        for file in "$front$typed"*$1; do
            if [[ -z $1 && -d $file ]]; then file+=/; fi
            printf '%s\0' "$tilde${file:${#front}}"
        done
    )
    if ((${#found[@]})); then return; fi
    if [[ -n $1 ]]; then compopt -o dirnames; else compopt -o default; fi
}

# Offers what the entry at $1 may be, each after the text 'before'.
_clidoc_`__values() {
    local -i at
    local word
    for ((at = $1 + 4; ; at += 4)); do
        case ${_clidoc_`__table[at]} in
            name) ;;
            among) _clidoc_`__offer "$before${_clidoc_`__table[at+1]}" ;;
            *) break ;;
        esac
    done
    case ${_clidoc_`__table[$1+2]} in
        file) _clidoc_`__files '' ;;
        folder) _clidoc_`__files / ;;
        user) while IFS= read -r word; do _clidoc_`__offer "$before$word"; done < <(compgen -u) ;;
        host) while IFS= read -r word; do _clidoc_`__offer "$before$word"; done < <(compgen -A hostname) ;;
    esac
}

# Offers the names of options that may still be given.
_clidoc_`__names() {
    local -i i
    local name
    for i in "${!names[@]}"; do
        option=${owners[i]} name=${names[i]}
        if [[ ${choices[option]} -ne 0 && -n ${given[choices[option]]} ]]; then continue; fi
        case ${_clidoc_`__table[options[option]+1]} in
            value) if [[ $name == --* ]]; then name+='='; fi ;;
            optional) if [[ $name == --* ]]; then _clidoc_`__offer "$name"; name+='='; fi ;;
        esac
        _clidoc_`__offer "$name"
        if ((is_cluster)) && [[ $name == -? && $name != -- ]]; then _clidoc_`__offer "$cur${name:1}"; fi
    done
}

# Offers the values that may stand at this place, and -- where they may only follow it. Each of the places before has
# one word at least, and a repeated one takes all the rest.
_clidoc_`__places() {
    local -i i is_many=0
    for ((i = 0; i < ${#places[@]} && i <= place; i++)); do
        if [[ ${_clidoc_`__table[places[i]+1]} == many ]]; then is_many=1; fi
        if ((i < place && is_many == 0)); then continue; fi
        has_place=1
        if [[ ${_clidoc_`__table[places[i]]} == strict && $after_dashes -eq 0 ]]; then
            _clidoc_`__offer --
        elif [[ $after_dashes -eq 1 || $cur != -* ]]; then
            _clidoc_`__values "${places[i]}"
        fi
    done
}

# Writes what is found as it is to be typed, without what bash leaves as it stands.
_clidoc_`__reply() {
    local word text char
    local -i i
    if ((files > 0 && files == ${#found[@]})) && [[ $before == "$kept" ]]; then
        compopt -o filenames
        for word in "${found[@]}"; do
            word=${word:${#kept}}
            COMPREPLY+=("${word%/}")
        done
        return
    fi
    for word in "${found[@]}"; do
        word=${word:${#kept}}
        if [[ -z $quote && $word == '~/'* ]]; then
            printf -v text %q "${word:2}"
            text='~/'$text
        elif [[ -z $quote ]]; then
            printf -v text %q "$word"
        else
            text=
            for ((i = 0; i < ${#word}; i++)); do
                char=${word:i:1}
                case $quote$char in
                    "''") text+="'\\''" ;;
                    '"'['"$\'] | '"'$'\140') text+=\\$char ;;
                    *) text+=$char ;;
                esac
            done
        fi
        COMPREPLY+=("$text")
    done
    if [[ ${#found[@]} -eq 1 && ( $found == -*= || $found == */ ) ]]; then compopt -o nospace; fi
}

_clidoc_`() {
    local -a words=() commands=() levels=() options=() choices=() names=() owners=() places=() given=() found=()
    local cur= kept= quote= before= how= word
    local -i place=0 after_dashes=0 option=-1 value_of=-1 files=0 has_place=0 is_cluster=0
    COMPREPLY=()
    _clidoc_`__read
    _clidoc_`__enter 0
    for word in "${words[@]:1}"; do _clidoc_`__pass "$word"; done
    before=
    if ((value_of >= 0)); then
        _clidoc_`__values "${options[value_of]}"
    elif ((after_dashes)); then
        _clidoc_`__places
    elif [[ $cur == -?* ]] && ! _clidoc_`__find "$cur" && _clidoc_`__give "$cur"; then
        if [[ -n $before ]]; then
            _clidoc_`__values "${options[option]}"
        elif [[ $how == flag ]]; then
            is_cluster=1
            _clidoc_`__names
        else
            _clidoc_`__offer "$cur"
        fi
    else
        _clidoc_`__places
        if ((has_place || place <= ${#places[@]})); then
            for word in "${commands[@]}"; do _clidoc_`__offer "$word"; done
        fi
        if [[ $cur == -* || -z $cur && $has_place -eq 0 && ${#commands[@]} -eq 0 ]]; then _clidoc_`__names; fi
    fi
    _clidoc_`__reply
}

_clidoc_`__table=(
"##;

/// What stands after it.
pub const BASH_TAIL: &str = r##")

complete -F _clidoc_` -- "${_clidoc_`__table[1]}"
"##;

/// What stands before the data of a script for zsh.
pub const ZSH_HEAD: &str =
    r##"# Completions for zsh: a file '_NAME' in a folder of 'fpath', or sourced after 'compinit'.
#
# Each entry of the table below has four words: what it is, and three that say more:
#
#   program NAME - -          the program; options up to 'level' stand on each level
#   level - - -               the top follows, up to its 'end'
#   once HOW HINT HELP        an option that is given once; 'many': many times; 'or': in place of the one before.
#                             HOW: flag, value, word (a value that is a word of its own), optional (only after a =)
#   name NAME - -             one of its names
#   place once HINT -         a positional value, the next one; 'many': many of them; 'strict': only after --
#   among VALUE - -           one of the values that an option or a positional value may have
#   command NAME - HELP       a command; its level follows, up to its 'end'
#   alias NAME - -            another name of the command
#   end - - -                 the end of a level
#
# HINT: file, folder, user, host or none. The table is data: no word of it is expanded or run.

# Takes what stands on a level, whose entries begin at $1.
_clidoc_`__load() {
    local -i depth=0
    for ((at = $1; ; at += 4)); do
        case $_clidoc_`__table[at] in
            (end|level)
                if ((depth == 0)); then return 0; fi
                depth+=-1 ;;
            (command)
                if ((depth == 0)); then command_at=$at _clidoc_`__command; fi
                depth+=1 ;;
            (alias)
                if ((depth == 1)); then _clidoc_`__command; fi ;;
            (once|many|or)
                if ((depth == 0)); then _clidoc_`__option; fi ;;
            (name)
                if ((depth == 0)); then option_names+=("$_clidoc_`__table[at+1]") owners+=($#option_at); fi ;;
            (place|strict)
                if ((depth == 0)); then places+=($at); fi ;;
        esac
    done
}

# Takes a name of the command that stands at 'command_at'.
_clidoc_`__command() {
    command_names+=("$_clidoc_`__table[at+1]") levels+=($((at + 4))) helps+=("$_clidoc_`__table[command_at+3]")
}

# Takes the option of the entry 'at'. Options of a choice have one number, and one that may stand many times has 0.
_clidoc_`__option() {
    if [[ $_clidoc_`__table[at] != or ]]; then last+=1; fi
    option_at+=($at)
    if [[ $_clidoc_`__table[at] == many ]]; then choices+=(0); else choices+=($last); fi
}

# Goes into a level, whose entries begin at $1; to the top with 0.
_clidoc_`__enter() {
    local -i at last=0 command_at choice
    local -a kept
    command_names=() levels=() helps=() option_at=() choices=() option_names=() owners=() places=() place=1
    _clidoc_`__load 5
    for choice in $given; do
        if ((choice <= last)); then kept+=($choice); fi
    done
    given=($kept)
    _clidoc_`__load $(($1 ? $1 : at + 4))
}

# Finds the option that has the name $1; one of this level comes before one that stands on each level.
_clidoc_`__find() {
    local -i i
    for ((i = $#option_names; i > 0; i--)); do
        if [[ $option_names[i] == "$1" ]]; then
            option=$owners[i]
            how=$_clidoc_`__table[option_at[option]+1]
            return 0
        fi
    done
    return 1
}

# The options that the word $1 gives. 'option' is the last of them, and 'how' says how its value is given. If 'before'
# is not empty, the value is in the same word and follows 'before'.
_clidoc_`__give() {
    local -i i
    before=
    if [[ $1 == -*=* ]] && _clidoc_`__find "${1%%=*}"; then
        before=${1%%=*}=
        given+=($choices[option])
        return 0
    fi
    if [[ $1 == --* ]]; then return 1; fi
    for ((i = 2; i <= $#1; i++)); do
        if ! _clidoc_`__find "-${1[i]}"; then return 1; fi
        given+=($choices[option])
        if [[ $how != flag ]]; then
            if ((i < $#1)); then before=${1[1,i]}; fi
            return 0
        fi
    done
    return 0
}

# Passes over a word before the cursor.
_clidoc_`__pass() {
    local -i i
    if ((value_of > 0)); then
        value_of=0
    elif ((after_dashes)); then
        place+=1
    elif [[ $1 == -- ]]; then
        after_dashes=1
        for ((i = 1; i <= $#places; i++)); do
            if [[ $_clidoc_`__table[places[i]] == strict ]]; then
                places=($places[i,-1]) place=1
                return
            fi
        done
    elif [[ $1 == -?* ]]; then
        if _clidoc_`__find "$1"; then
            before=
            given+=($choices[option])
        elif ! _clidoc_`__give "$1"; then
            return
        fi
        if [[ -z $before && ( $how == value || $how == word ) ]]; then value_of=$option; fi
    else
        for ((i = 1; i <= $#command_names; i++)); do
            if [[ $command_names[i] == "$1" ]]; then
                _clidoc_`__enter $levels[i]
                return
            fi
        done
        place+=1
    fi
}

# Offers what the entry at $1 may be.
_clidoc_`__values() {
    local -i at
    local -a values
    for ((at = $1 + 4; ; at += 4)); do
        case $_clidoc_`__table[at] in
            (name) ;;
            (among) values+=("$_clidoc_`__table[at+1]") ;;
            (*) break ;;
        esac
    done
    if (($#values)) && compadd -J values -a values; then offers=0; fi
    case $_clidoc_`__table[$1+2] in
        (file) if _files; then offers=0; fi ;;
        (folder) if _path_files -/; then offers=0; fi ;;
        (user) if _users; then offers=0; fi ;;
        (host) if _hosts; then offers=0; fi ;;
    esac
}

# Offers 'matches', each with its help in 'texts', in the group $1; $2 is added to each.
_clidoc_`__offer() {
    local -a shown
    local -i i wide=0
    if ((! $#matches)); then return; fi
    for ((i = 1; i <= $#matches; i++)); do
        if ((${(m)#matches[i]} > wide)); then wide=${(m)#matches[i]}; fi
    done
    for ((i = 1; i <= $#matches; i++)); do
        shown+=("${(mr:wide:)matches[i]}  $texts[i]")
        shown[i]=${(mr:COLUMNS-1:)shown[i]}
        shown[i]=${shown[i]%%[[:blank:]]#}
    done
    if compadd -J $1 -l -S "$2" -d shown -a matches; then offers=0; fi
}

# Offers the names of options that may still be given. Some of them are followed by a =.
_clidoc_`__names() {
    local -i i
    local name text
    local -a matches texts with_equals help_of_equals
    for ((i = 1; i <= $#option_names; i++)); do
        option=$owners[i] name=$option_names[i] text=$_clidoc_`__table[option_at[option]+3]
        if ((choices[option] && given[(Ie)$choices[option]])); then continue; fi
        how=$_clidoc_`__table[option_at[option]+1]
        if [[ $name == --* && ( $how == value || $how == optional ) ]]; then
            with_equals+=("$name") help_of_equals+=("$text")
        fi
        if [[ $name != --* || $how != value ]]; then
            matches+=("$name") texts+=("$text")
        fi
        if ((is_cluster)) && [[ $name == -[^-] ]]; then
            matches+=("$current${name[2]}") texts+=("$text")
        fi
    done
    _clidoc_`__offer options ' '
    matches=($with_equals) texts=("${(@)help_of_equals}")
    _clidoc_`__offer options =
}

# Offers the values that may stand at this place, and -- where they may only follow it. Each of the places before has
# one word at least, and a repeated one takes all the rest.
_clidoc_`__places() {
    local -i i is_many=0
    for ((i = 1; i <= $#places && i <= place; i++)); do
        if [[ $_clidoc_`__table[places[i]+1] == many ]]; then is_many=1; fi
        if ((i < place && ! is_many)); then continue; fi
        has_place=1
        if [[ $_clidoc_`__table[places[i]] == strict && $after_dashes -eq 0 ]]; then
            if compadd -J options -- --; then offers=0; fi
        elif [[ $after_dashes -eq 1 || $current != -* ]]; then
            _clidoc_`__values $places[i]
        fi
    done
}

_clidoc_`() {
    local -a command_names levels helps option_at choices option_names owners places given matches texts
    local current=${(Q)PREFIX} before= how= word
    local -i place=1 after_dashes=0 option=0 value_of=0 has_place=0 is_cluster=0 offers=1
    _clidoc_`__enter 0
    for word in "${(@)words[2,CURRENT-1]}"; do _clidoc_`__pass "${(Q)word}"; done
    before=
    if ((value_of)); then
        _clidoc_`__values $option_at[value_of]
    elif ((after_dashes)); then
        _clidoc_`__places
    elif [[ $current == -?* ]] && ! _clidoc_`__find "$current" && _clidoc_`__give "$current"; then
        if [[ -n $before ]]; then
            compset -p $#before
            _clidoc_`__values $option_at[option]
        elif [[ $how == flag ]]; then
            is_cluster=1
            _clidoc_`__names
        elif compadd -J options -- "$current"; then
            offers=0
        fi
    else
        _clidoc_`__places
        if ((has_place || place <= $#places + 1)); then
            matches=("${(@)command_names}") texts=("${(@)helps}")
            _clidoc_`__offer commands ' '
        fi
        if [[ $current == -* || -z $current && $has_place -eq 0 && $#command_names -eq 0 ]]; then
            _clidoc_`__names
        fi
    fi
    return offers
}

typeset -ga _clidoc_`__table
_clidoc_`__table=(
"##;

/// What stands after it.
pub const ZSH_TAIL: &str = r##")

if [[ $funcstack[1] == _* ]]; then
    _clidoc_` "$@"
elif (($+functions[compdef])); then
    compdef _clidoc_` "$_clidoc_`__table[2]"
fi
"##;

/// What stands before the data of a script for fish.
pub const FISH_HEAD: &str =
    r##"# Completions for fish: a file NAME.fish in 'completions' of its folder of settings, or sourced.
#
# Each entry of the table below has four words: what it is, and three that say more:
#
#   program NAME - -          the program; options up to 'level' stand on each level
#   level - - -               the top follows, up to its 'end'
#   once HOW HINT HELP        an option that is given once; 'many': many times; 'or': in place of the one before.
#                             HOW: flag, value, word (a value that is a word of its own), optional (only after a =)
#   name NAME - -             one of its names
#   place once HINT -         a positional value, the next one; 'many': many of them; 'strict': only after --
#   among VALUE - -           one of the values that an option or a positional value may have
#   command NAME - HELP       a command; its level follows, up to its 'end'
#   alias NAME - -            another name of the command
#   end - - -                 the end of a level
#
# HINT: file, folder, user, host or none. The table is data: no word of it is expanded or run.
#
# The functions with -S see the variables of _clidoc_`__offer, which calls them.

# Takes what stands on a level, whose entries begin at the first word.
function _clidoc_`__load -S
    set at $argv[1]
    set -l depth 0
    while set -q _clidoc_`__table[$at]
        switch $_clidoc_`__table[$at]
            case end level
                test $depth -eq 0; and return
                set depth (math $depth - 1)
            case command
                if test $depth -eq 0
                    set command_at $at
                    set -a command_names $_clidoc_`__table[(math $at + 1)]
                    set -a levels (math $at + 4)
                    set -a helps $_clidoc_`__table[(math $at + 3)]
                end
                set depth (math $depth + 1)
            case alias
                if test $depth -eq 1
                    set -a command_names $_clidoc_`__table[(math $at + 1)]
                    set -a levels (math $at + 4)
                    set -a helps $_clidoc_`__table[(math $command_at + 3)]
                end
            case once many or
                if test $depth -eq 0
                    test $_clidoc_`__table[$at] = or; or set last (math $last + 1)
                    set -a option_at $at
                    if test $_clidoc_`__table[$at] = many
                        set -a choices 0
                    else
                        set -a choices $last
                    end
                end
            case name
                if test $depth -eq 0
                    set -p option_names $_clidoc_`__table[(math $at + 1)]
                    set -p owners (count $option_at)
                end
            case place strict
                test $depth -eq 0; and set -a places $at
        end
        set at (math $at + 4)
    end
end

# Goes into a level, whose entries begin at the first word; to the top with 0. Options of a choice have one number, and
# one that may stand many times has 0.
function _clidoc_`__enter -S
    set -l at 0
    set -l last 0
    set -l command_at 0
    set command_names
    set levels
    set helps
    set option_at
    set choices
    set option_names
    set owners
    set places
    set place 1
    _clidoc_`__load 5
    set -l kept
    for choice in $given
        test $choice -le $last; and set -a kept $choice
    end
    set given $kept
    if test $argv[1] -eq 0
        _clidoc_`__load (math $at + 4)
    else
        _clidoc_`__load $argv[1]
    end
end

# Finds the option that has this name; one of this level comes before one that stands on each level.
function _clidoc_`__find -S
    set -l i (contains -i -- $argv[1] $option_names); or return
    set option $owners[$i]
    set how $_clidoc_`__table[(math $option_at[$option] + 1)]
end

# The options that a word gives. 'option' is the last of them, and 'how' says how its value is given. If 'before' is
# not empty, the value is in the same word and follows 'before'.
function _clidoc_`__give -S
    set before ''
    set -l parts (string split -m 1 = -- $argv[1])
    if set -q parts[2]; and _clidoc_`__find $parts[1]
        set before $parts[1]=
        set -a given $choices[$option]
        return 0
    end
    test (string sub -l 2 -- $argv[1]) = --; and return 1
    set -l length 1
    for letter in (string split '' -- (string sub -s 2 -- $argv[1]))
        set length (math $length + 1)
        _clidoc_`__find -$letter; or return
        set -a given $choices[$option]
        if test $how != flag
            test $length -lt (string length -- $argv[1]); and set before (string sub -l $length -- $argv[1])
            return 0
        end
    end
    return 0
end

# Passes over a word before the cursor.
function _clidoc_`__pass -S
    if test $value_of -gt 0
        set value_of 0
        return
    end
    if test $after_dashes -eq 1
        set place (math $place + 1)
        return
    end
    switch $argv[1]
        case --
            set after_dashes 1
            set -l i 0
            for entry in $places
                set i (math $i + 1)
                if test $_clidoc_`__table[$entry] = strict
                    set places $places[$i..-1]
                    set place 1
                    return
                end
            end
        case '-?*' '--*'
            if _clidoc_`__find $argv[1]
                set before ''
                set -a given $choices[$option]
            else
                _clidoc_`__give $argv[1]; or return
            end
            if test -z "$before"; and contains $how value word
                set value_of $option
            end
        case '*'
            if set -l i (contains -i -- $argv[1] $command_names)
                _clidoc_`__enter $levels[$i]
            else
                set place (math $place + 1)
            end
    end
end

# Offers a word, with its help.
function _clidoc_`__say -S
    string match -q '*
*' -- $argv[1]; or printf '%s\t%s\n' $argv
end

# Offers what the names of files go on with, or of folders alone where a slash is given.
function _clidoc_`__files -S
    set -l typed (string sub -s (math (string length -- $before) + 1) -- $current)
    set -l front ''
    set -l tilde ''
    if string match -q '~/*' -- $typed
        set front $HOME
        set tilde '~'
        set typed (string sub -s 2 -- $typed)
    end
    for file in $front$typed*$argv[1]
        set -l name $tilde(string sub -s (math (string length -- $front) + 1) -- $file)
        if test -z "$argv[1]" -a -d $file
            set name $name/
        end
        _clidoc_`__say $before$name ''
    end
end

# Offers what an entry may be, each after the text 'before'.
function _clidoc_`__values -S
    set -l at (math $argv[1] + 4)
    while contains $_clidoc_`__table[$at] name among
        test $_clidoc_`__table[$at] = among; and _clidoc_`__say $before$_clidoc_`__table[(math $at + 1)] ''
        set at (math $at + 4)
    end
    switch $_clidoc_`__table[(math $argv[1] + 2)]
        case file
            _clidoc_`__files ''
        case folder
            _clidoc_`__files /
        case user
            for line in (__fish_complete_users)
                printf '%s%s\n' $before $line
            end
        case host
            for line in (__fish_print_hostnames)
                printf '%s%s\n' $before $line
            end
    end
end

# Offers the names of options that may still be given. Some of them are followed by a =.
function _clidoc_`__names -S
    set -l i 0
    for name in $option_names
        set i (math $i + 1)
        set option $owners[$i]
        test $choices[$option] -ne 0; and contains $choices[$option] $given; and continue
        set how $_clidoc_`__table[(math $option_at[$option] + 1)]
        set -l help $_clidoc_`__table[(math $option_at[$option] + 3)]
        set -l is_long 0
        test (string sub -l 2 -- $name) = --; and set is_long 1
        test $is_long -eq 1 -a $how = value; or _clidoc_`__say $name $help
        test $is_long -eq 1; and contains $how value optional; and _clidoc_`__say $name= $help
        test $is_long -eq 0 -a $is_cluster -eq 1 -a (string length -- $name) -eq 2
        and _clidoc_`__say $current(string sub -s 2 -- $name) $help
    end
end

# Offers the values that may stand at this place, and -- where they may only follow it. Each of the places before has
# one word at least, and a repeated one takes all the rest.
function _clidoc_`__places -S
    set -l i 0
    set -l is_many 0
    for entry in $places
        set i (math $i + 1)
        test $i -gt $place; and break
        test $_clidoc_`__table[(math $entry + 1)] = many; and set is_many 1
        test $i -lt $place -a $is_many -eq 0; and continue
        set has_place 1
        if test $_clidoc_`__table[$entry] = strict -a $after_dashes -eq 0
            _clidoc_`__say -- ''
        else if test $after_dashes -eq 1; or not string match -q -- '-*' $current
            _clidoc_`__values $entry
        end
    end
end

# Offers what may stand at the cursor, a line each, with a help after a tab.
function _clidoc_`__offer
    set -l words (commandline -opc)
    set -l current (commandline -ct)
    test -n "$current"
    and set current (
        string unescape -- $current; or string unescape -- $current\'; or string unescape -- $current\"
        or printf '%s\n' $current
    )
    set -l command_names
    set -l levels
    set -l helps
    set -l option_at
    set -l choices
    set -l option_names
    set -l owners
    set -l places
    set -l given
    set -l before ''
    set -l how ''
    set -l place 1
    set -l after_dashes 0
    set -l option 0
    set -l value_of 0
    set -l has_place 0
    set -l is_cluster 0
    _clidoc_`__enter 0
    for word in $words[2..-1]
        _clidoc_`__pass $word
    end
    set before ''
    if test $value_of -gt 0
        _clidoc_`__values $option_at[$value_of]
    else if test $after_dashes -eq 1
        _clidoc_`__places
    else if string match -q -- '-*' $current; and test "$current" != -; and not _clidoc_`__find $current
        and _clidoc_`__give $current
        if test -n "$before"
            _clidoc_`__values $option_at[$option]
        else if test $how = flag
            set is_cluster 1
            _clidoc_`__names
        else
            _clidoc_`__say $current ''
        end
    else
        _clidoc_`__places
        if test $has_place -eq 1 -o $place -le (math (count $places) + 1)
            set -l i 0
            for name in $command_names
                set i (math $i + 1)
                _clidoc_`__say $name $helps[$i]
            end
        end
        if string match -q -- '-*' $current; or test -z "$current$command_names" -a $has_place -eq 0
            _clidoc_`__names
        end
    end
end

set -g _clidoc_`__table \
"##;

/// What stands after it.
pub const FISH_TAIL: &str = r##"
complete -c (string escape -- $_clidoc_`__table[2]) -e
complete -c (string escape -- $_clidoc_`__table[2]) -f -a '(_clidoc_`__offer)'
"##;
