//! Where two lists of reads differ.

ghost use Rattle.dep_graph.specs.Differing.{AreDiffering};

use crate::numbers::ReadNumber;

// The lists without what they begin with alike.
fn without_front<'a>(
    left: &'a [ReadNumber],
    right: &'a [ReadNumber],
) -> (&'a [ReadNumber], &'a [ReadNumber])
    ensures { AreDiffering left.now right.now result.0.now result.1.now }
{
    let mut gone = left;
    let mut more = right;
    'front: while let Some((first, next)) = gone.split_first() {
        let Some((second, rest)) = more.split_first() else {
            return (gone, more);
        };
        if *first != *second {
            return (gone, more);
        }
        gone = next;
        more = rest;
    }
    (gone, more)
}

// The lists without what they end with alike.
fn without_back<'a>(
    left: &'a [ReadNumber],
    right: &'a [ReadNumber],
) -> (&'a [ReadNumber], &'a [ReadNumber])
    ensures { AreDiffering left.now right.now result.0.now result.1.now }
{
    let mut gone = left;
    let mut more = right;
    'back: while let Some((first, next)) = gone.split_last() {
        let Some((second, rest)) = more.split_last() else {
            return (gone, more);
        };
        if *first != *second {
            return (gone, more);
        }
        gone = next;
        more = rest;
    }
    (gone, more)
}

/// The lists without what they begin with and end with alike.
///
/// Memory: none. Cost: linear in what is alike.
pub(crate) fn differing<'a>(
    left: &'a [ReadNumber],
    right: &'a [ReadNumber],
) -> (&'a [ReadNumber], &'a [ReadNumber])
    ensures { AreDiffering left.now right.now result.0.now result.1.now }
{
    let (gone, more) = without_front(left, right);
    without_back(gone, more)
}
