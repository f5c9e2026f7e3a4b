//! Callers of the libraries: those of each crate's `CALLING.md`, word by word, below the crate's name.
#![tactic(auto)]

// bpaf_roff
pub mod roff;

// bpaf_doc
pub mod console;
pub mod web;

// bpaf_help
pub mod application;
pub mod headline;
pub mod usage;

// description
pub mod describing;

// description_toml
pub mod reading;

// keyed
pub mod places;

// description_json
pub mod json_reading;

// description_texts
pub mod text_entry;

// description_usage
pub mod level_usage;

// description_hints
pub mod hints;

// description_pages
pub mod level_manual;

// command_pages
pub mod command_help;

// completions
pub mod completing;

// lasting_names
pub mod naming;

// file_names
pub mod file_naming;

// watched
pub mod ends;

// shown_words
pub mod line_about;

// shown_letters
pub mod letters_of;

// json_of_descriptions
pub mod json_writing;

// help_fronts
pub mod option_of;

// help_blocks
pub mod help_lines;

// help_differences
pub mod help_unlike;

// toml_pieces
pub mod toml_name;

// drafts
pub mod draft_for;

// web_page
pub mod note;

// man_page
pub mod manual;

// markdown_page
pub mod markdown;

// console_page
pub mod terminal;

// html_page
pub mod html;
