//! Topics, each from its table.
ghost use Rattle.std.specs.Prelude.{◌≡◌, map, option_and_then};
ghost use Rattle.toml.specs.Data.{as_table};
ghost use Rattle.toml.specs.View.{items_view, view};
ghost use Rattle.description_toml.specs.Described.{topic_from};
ghost use Rattle.description_toml.specs.Described.Values.{each_table};
ghost use Rattle.description_toml.specs.Faults.{Reads};
ghost use Rattle.description.specs.View.{topic_said};

use super::teller::{Refused, Teller};
use super::texts::Kind;
use super::values::{check_keys, required_text_at, table_of};
use description::topics::Topic;
use std::alloc::Allocator;
use toml::Value;

const TOPIC_KEYS: [&str; 2] = ["title", "text"];

#[tactic(auto, unfolding(crate::specs::Described::topic_from))]
fn topic_from<'a, A: Allocator + Copy>(
    teller: &mut Teller<'a, A>,
    item: &'a Value,
) -> Result<Topic<'a>, Refused>
    ensures { Reads (option_and_then topic_from (as_table (view item.now))) (λ topic. topic_said topic) result }
{
    let table = table_of(teller, item)?;
    let are_known = check_keys(teller, table, &TOPIC_KEYS);
    let title = required_text_at(teller, table, "title", Kind::Heading);
    let text = required_text_at(teller, table, "text", Kind::Body);
    are_known?;
    Ok(Topic {
        title: title?,
        text: text?,
    })
}

/// Topics, each from its table.
pub fn topics_in<'a, A: Allocator + Copy>(
    teller: &mut Teller<'a, A>,
    items: &'a [Value],
) -> Result<Vec<Topic<'a>, A>, Refused>
    ensures { Reads (each_table topic_from (items_view items.now)) (λ topics. map topic_said topics.items) result }
{
    teller.enter("topic", items)?;
    let mut topics = Ok(Vec::new(teller.alloc()));
    for item in items {
        let topic = topic_from(teller, item);
        topics = teller.joined(topics, topic);
    }
    teller.leave();
    topics
}
