//! Levels of a command line: the top, and each command. What stands on one, and groups of it.
ghost use Rattle.std.specs.Prelude.{◌≡◌, Some, None, true, false, OnErr, OnOk};
ghost use Rattle.description.specs.Calls.{empty_group, empty_level, group_with_choice, hidden_command, plain_command};
ghost use Rattle.description.specs.Calls.{group_with_command, group_with_option, group_with_positional};
ghost use Rattle.description.specs.Calls.{with_about, with_alias, with_choice, with_command, with_commands_optional};
ghost use Rattle.description.specs.Calls.{with_footer, with_group, with_header, with_initial};
ghost use Rattle.description.specs.Calls.{with_command_help, with_option, with_positional, with_topic, with_usage};
ghost use Rattle.description.specs.View.{choice_said, command_said, group_said, level_said, opt_said};
ghost use Rattle.description.specs.View.{positional_said, topic_said};

use crate::options::{Choice, Opt};
use crate::positionals::Positional;
use crate::topics::Topic;
use std::alloc::{AllocError, Allocator, Global};

/// The top of a command line, or a command: its texts, and what can be given there.
#[cycle(level)]
#[derive(Drop)]
#[derive_where(Debug)]
pub struct Level<'a, A: Allocator = Global> {
    /// What the program or the command does.
    pub about: Option<&'a str>,
    /// A text after the usage, above the lists.
    pub header: Option<&'a str>,
    /// A text at the end, under the title of the notes.
    pub footer: Option<&'a str>,
    /// A text in place of the usage on each page, a form a line.
    pub usage: Option<&'a str>,
    /// Whether one of the commands has to be given, here and in the groups.
    pub command_required: bool,
    pub options: Vec<Opt<'a>, A>,
    pub choices: Vec<Choice<'a, A>, A>,
    pub groups: Vec<Group<'a, A>, A>,
    pub positionals: Vec<Positional<'a>, A>,
    pub commands: Vec<Command<'a, A>, A>,
    /// Parts of the page of their own, after the lists and above the footer.
    pub topics: Vec<Topic<'a>, A>,
}

/// What stands under a title of its own.
#[cycle(level)]
#[derive(Drop)]
#[derive_where(Debug)]
pub struct Group<'a, A: Allocator = Global> {
    pub title: &'a str,
    pub options: Vec<Opt<'a>, A>,
    pub choices: Vec<Choice<'a, A>, A>,
    pub positionals: Vec<Positional<'a>, A>,
    pub commands: Vec<Command<'a, A>, A>,
}

/// A command, and what can be given after it.
#[cycle(level)]
#[derive(Drop)]
#[derive_where(Debug)]
pub struct Command<'a, A: Allocator = Global> {
    pub name: &'static str,
    pub short: Option<char>,
    /// Other names of it, which lead to it as its own does.
    pub aliases: Vec<&'static str, A>,
    pub help: Option<&'a str>,
    /// Whether no page shows it. What follows it on a command line is shown where it is asked for by its name.
    pub hidden: bool,
    pub level: Level<'a, A>,
}

impl<'a, A: Allocator + Copy> Level<'a, A> {
    /// A level without texts, on which nothing can be given yet. Once it has commands, one of them has to be given.
    pub fn new(alloc: A) -> Level<'a, A>
        ensures { level_said result ≡ empty_level }
    {
        Level {
            about: None,
            header: None,
            footer: None,
            usage: None,
            command_required: true,
            options: Vec::new(alloc),
            choices: Vec::new(alloc),
            groups: Vec::new(alloc),
            positionals: Vec::new(alloc),
            commands: Vec::new(alloc),
            topics: Vec::new(alloc),
        }
    }
}

impl<'a, A: Allocator> Level<'a, A> {
    /// The level with a text that says what the program or the command does.
    pub fn about(mut self, about: &'a str) -> Level<'a, A>
        ensures { level_said result ≡ with_about (level_said self.entry) about.now }
    {
        self.about = Some(about);
        self
    }

    /// The level with a text after its usage, above the lists.
    pub fn header(mut self, header: &'a str) -> Level<'a, A>
        ensures { level_said result ≡ with_header (level_said self.entry) header.now }
    {
        self.header = Some(header);
        self
    }

    /// The level with a text at the end, under the title of the notes.
    pub fn footer(mut self, footer: &'a str) -> Level<'a, A>
        ensures { level_said result ≡ with_footer (level_said self.entry) footer.now }
    {
        self.footer = Some(footer);
        self
    }

    /// The level with a text in place of its usage on each page, a form a line.
    pub fn usage(mut self, usage: &'a str) -> Level<'a, A>
        ensures { level_said result ≡ with_usage (level_said self.entry) usage.now }
    {
        self.usage = Some(usage);
        self
    }

    /// The level as one where no command has to be given.
    pub fn commands_optional(mut self) -> Level<'a, A>
        ensures { level_said result ≡ with_commands_optional (level_said self.entry) }
    {
        self.command_required = false;
        self
    }

    /// Puts an option last among those of the level. After `AllocError` the level is as it was, and what was given
    /// is dropped.
    pub fn option(&mut self, option: Opt<'a>) -> Result<(), AllocError>
        ensures ok { OnOk result (level_said self.new ≡ with_option (level_said self.old) (opt_said option.entry)) }
        ensures err { OnErr result (level_said self.new ≡ level_said self.old) }
    {
        self.options.push(option)?;
        Ok(())
    }

    /// Puts a choice last among those of the level. After `AllocError` the level is as it was, and what was given
    /// is dropped.
    pub fn choice(&mut self, choice: Choice<'a, A>) -> Result<(), AllocError>
        ensures ok { OnOk result (level_said self.new
            ≡ with_choice (level_said self.old) (choice_said choice.entry)) }
        ensures err { OnErr result (level_said self.new ≡ level_said self.old) }
    {
        self.choices.push(choice)?;
        Ok(())
    }

    /// Puts a group last among those of the level. After `AllocError` the level is as it was, and what was given
    /// is dropped.
    pub fn group(&mut self, group: Group<'a, A>) -> Result<(), AllocError>
        ensures ok { OnOk result (level_said self.new ≡ with_group (level_said self.old) (group_said group.entry)) }
        ensures err { OnErr result (level_said self.new ≡ level_said self.old) }
    {
        self.groups.push(group)?;
        Ok(())
    }

    /// Puts a positional value last among those of the level. After `AllocError` the level is as it was, and what
    /// was given is dropped.
    pub fn positional(&mut self, positional: Positional<'a>) -> Result<(), AllocError>
        ensures ok { OnOk result (level_said self.new
            ≡ with_positional (level_said self.old) (positional_said positional.entry)) }
        ensures err { OnErr result (level_said self.new ≡ level_said self.old) }
    {
        self.positionals.push(positional)?;
        Ok(())
    }

    /// Puts a command last among those of the level. After `AllocError` the level is as it was, and what was given
    /// is dropped.
    pub fn command(&mut self, command: Command<'a, A>) -> Result<(), AllocError>
        ensures ok { OnOk result (level_said self.new
            ≡ with_command (level_said self.old) (command_said command.entry)) }
        ensures err { OnErr result (level_said self.new ≡ level_said self.old) }
    {
        self.commands.push(command)?;
        Ok(())
    }

    /// Puts a topic last among those of the level. After `AllocError` the level is as it was, and what was given
    /// is dropped.
    pub fn topic(&mut self, topic: Topic<'a>) -> Result<(), AllocError>
        ensures ok { OnOk result (level_said self.new ≡ with_topic (level_said self.old) (topic_said topic.entry)) }
        ensures err { OnErr result (level_said self.new ≡ level_said self.old) }
    {
        self.topics.push(topic)?;
        Ok(())
    }
}

impl<'a, A: Allocator + Copy> Group<'a, A> {
    /// A group with nothing in it yet.
    pub fn new(alloc: A, title: &'a str) -> Group<'a, A>
        ensures { group_said result ≡ empty_group title.now }
    {
        Group {
            title,
            options: Vec::new(alloc),
            choices: Vec::new(alloc),
            positionals: Vec::new(alloc),
            commands: Vec::new(alloc),
        }
    }
}

impl<'a, A: Allocator> Group<'a, A> {
    /// Puts an option last among those of the group. After `AllocError` the group is as it was, and what was given
    /// is dropped.
    pub fn option(&mut self, member: Opt<'a>) -> Result<(), AllocError>
        ensures ok { OnOk result (group_said self.new
            ≡ group_with_option (group_said self.old) (opt_said member.entry)) }
        ensures err { OnErr result (group_said self.new ≡ group_said self.old) }
    {
        self.options.push(member)?;
        Ok(())
    }

    /// Puts a choice last among those of the group. After `AllocError` the group is as it was, and what was given
    /// is dropped.
    pub fn choice(&mut self, member: Choice<'a, A>) -> Result<(), AllocError>
        ensures ok { OnOk result (group_said self.new
            ≡ group_with_choice (group_said self.old) (choice_said member.entry)) }
        ensures err { OnErr result (group_said self.new ≡ group_said self.old) }
    {
        self.choices.push(member)?;
        Ok(())
    }

    /// Puts a positional value last among those of the group. After `AllocError` the group is as it was, and what
    /// was given is dropped.
    pub fn positional(&mut self, member: Positional<'a>) -> Result<(), AllocError>
        ensures ok { OnOk result (group_said self.new
            ≡ group_with_positional (group_said self.old) (positional_said member.entry)) }
        ensures err { OnErr result (group_said self.new ≡ group_said self.old) }
    {
        self.positionals.push(member)?;
        Ok(())
    }

    /// Puts a command last among those of the group. After `AllocError` the group is as it was, and what was given
    /// is dropped.
    pub fn command(&mut self, member: Command<'a, A>) -> Result<(), AllocError>
        ensures ok { OnOk result (group_said self.new
            ≡ group_with_command (group_said self.old) (command_said member.entry)) }
        ensures err { OnErr result (group_said self.new ≡ group_said self.old) }
    {
        self.commands.push(member)?;
        Ok(())
    }
}

impl<'a, A: Allocator + Copy> Command<'a, A> {
    /// A command with what can be given after it.
    pub fn new(name: &'static str, level: Level<'a, A>) -> Command<'a, A>
        ensures { command_said result ≡ plain_command name.now (level_said level.entry) }
    {
        let alloc = *level.options.allocator();
        Command {
            name,
            short: None,
            aliases: Vec::new(alloc),
            help: None,
            hidden: false,
            level,
        }
    }
}

impl<'a, A: Allocator> Command<'a, A> {
    /// The command with a short name.
    pub fn short(mut self, short: char) -> Command<'a, A>
        ensures { command_said result ≡ with_initial (command_said self.entry) short }
    {
        self.short = Some(short);
        self
    }

    /// The command with a help text, which the page of its level shows.
    pub fn help(mut self, help: &'a str) -> Command<'a, A>
        ensures { command_said result ≡ with_command_help (command_said self.entry) help.now }
    {
        self.help = Some(help);
        self
    }

    /// Puts another name last among those of the command. After `AllocError` the command is as it was.
    pub fn alias(&mut self, name: &'static str) -> Result<(), AllocError>
        ensures ok { OnOk result (command_said self.new ≡ with_alias (command_said self.old) name.now) }
        ensures err { OnErr result (command_said self.new ≡ command_said self.old) }
    {
        self.aliases.push(name)?;
        Ok(())
    }

    /// The command as one that no page of its level shows.
    pub fn hidden(mut self) -> Command<'a, A>
        ensures { command_said result ≡ hidden_command (command_said self.entry) }
    {
        self.hidden = true;
        self
    }
}
