//! What no clause says of orders.
use bpaf_meta::item::ShortLong;
use bpaf_meta::meta_help::Metavar;

// In each row the first is less.
const NAMES: &[(ShortLong, ShortLong)] = &[
    (ShortLong::Short('a'), ShortLong::Short('b')),
    (ShortLong::Short('z'), ShortLong::Long("a")),
    (ShortLong::Long("z"), ShortLong::Both('a', "a")),
    (ShortLong::Both('a', "a"), ShortLong::Both('a', "b")),
];

fn is_less(name: &ShortLong, other: &ShortLong) -> bool {
    name < other && name != other
}

#[test]
fn orders_of_names(rt: HostRuntime) {
    for (less, more) in NAMES {
        assert!(rt; is_less(less, more));
    }
    assert!(rt; Metavar("A") < Metavar("B"));
}
