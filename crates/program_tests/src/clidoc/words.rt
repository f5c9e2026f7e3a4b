//! What words choose, with each growth refused in turn. A clause of `choose` says which words choose what.
use clidoc_engine::reading::WordFault;
use clidoc_engine::words::{Choice, ConsoleForm, Extent, Page, Shell, choose};
use linked_list_allocator::LocalHeap;
use std::alloc::{Allocator, Global};

const WORDS: &[&str] = &[
    "--command=a",
    "full",
    "--command",
    "b",
    "--width=3",
    "--",
    "c",
];

const HTML_WORDS: &[&str] = &[
    "--fragment",
    "html",
    "--vendor=v",
    "c",
    "--date",
    "d",
    "--command=a",
];

const CHECK_WORDS: &[&str] = &["--strict", "check", "c"];

const SHELL_WORDS: &[&str] = &["complete", "zsh", "--", "c"];

fn is_that<A: Allocator>(choice: &Choice<'_, A>) -> bool {
    match choice {
        Choice::Page(Page::Console(console), Some("c")) => {
            console.form == ConsoleForm::Full
                && console.width == 3
                && console.commands.as_slice() == ["a", "b"].as_slice()
        }
        _ => false,
    }
}

fn is_fragment<A: Allocator>(choice: &Choice<'_, A>) -> bool {
    match choice {
        Choice::Page(
            Page::Html {
                extent: Extent::Fragment,
                commands,
                title,
            },
            Some("c"),
        ) => {
            title.date == Some("d")
                && title.vendor == Some("v")
                && commands.as_slice() == ["a"].as_slice()
        }
        _ => false,
    }
}

fn is_completion<A: Allocator>(choice: &Choice<'_, A>) -> bool {
    matches!(
        choice,
        Choice::Page(Page::Completion(Shell::Zsh), Some("c"))
    )
}

// Whether the words choose what they say, on that much memory. None where a growth is refused.
fn chosen(global: Global, budget: usize, words: &[&str]) -> Option<bool> {
    let Ok(heap) = LocalHeap::new(global, budget) else {
        return Some(false);
    };
    match choose(&heap, 100, words) {
        Ok(Choice::Check { strict, file }) => Some(strict && file == Some("c")),
        Ok(choice) => Some(is_that(&choice) || is_fragment(&choice) || is_completion(&choice)),
        Err(WordFault::Refused(_)) => None,
        Err(_) => Some(false),
    }
}

// Whether they choose nothing until the memory is ample, and some memory is not.
fn chooses_when_ample(global: Global, words: &[&str]) -> bool {
    for budget in 0..4096usize {
        if let Some(is_that) = chosen(global, budget * 16, words) {
            return is_that && budget > 0;
        }
    }
    false
}

#[test]
fn a_refused_growth_chooses_nothing(rt: HostRuntime) {
    assert!(rt; chooses_when_ample(rt.alloc(), WORDS));
    assert!(rt; chooses_when_ample(rt.alloc(), HTML_WORDS));
    assert!(rt; chooses_when_ample(rt.alloc(), CHECK_WORDS));
    assert!(rt; chooses_when_ample(rt.alloc(), SHELL_WORDS));
}
