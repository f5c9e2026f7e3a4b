//! Tests of `man_page`, `markdown_page` and `console_page`, over pages of `page_model`: whole pages, what stands for
//! each text, which texts a page may have, and each growth refused in turn; of `description_texts`: texts with their
//! blocks; of `description_pages`: a level from its records to its manual page, which words lead to a level, all
//! levels as a tree; and of `command_pages`: the pages of a command line.
#![tactic(auto)]

#[cfg(test)]
mod blocks;
#[cfg(test)]
mod chapters;
#[cfg(test)]
mod commands;
#[cfg(test)]
mod console;
#[cfg(test)]
mod html;
#[cfg(test)]
mod html_written;
#[cfg(test)]
mod levels;
#[cfg(test)]
mod manual;
#[cfg(test)]
mod markdown;
#[cfg(test)]
mod markdown_tide;
#[cfg(test)]
mod markdown_tide_save;
#[cfg(test)]
mod refusals;
#[cfg(test)]
mod said;
#[cfg(test)]
mod subjects;
#[cfg(test)]
mod texts;
#[cfg(test)]
mod tide;
#[cfg(test)]
mod tide_save;
