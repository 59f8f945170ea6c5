//! How many nodes a process takes, so that there is room for them from the first.

use spi_tree::SProc;

/// So many nodes and those of a process. The count stops behind 100,000, since no file has more.
fn nodes_with(so_far: usize, p: &SProc) -> usize {
    if so_far >= 100_000 {
        return so_far;
    }
    let more = so_far + 1;
    match p {
        SProc::Stop { .. } | SProc::Out { .. } => more,
        SProc::Par { parts, .. } | SProc::Group { parts, .. } => {
            nodes_with(nodes_with(more, &parts.first), &parts.rest)
        }
        SProc::Case { parts, .. } => {
            nodes_with(nodes_with(more, &parts.on_left), &parts.on_right)
        }
        SProc::OutThen { parts, .. } => nodes_with(more + 1, &parts.then),
        SProc::Inp { parts, .. } | SProc::Repeat { parts, .. } => nodes_with(more, &parts.then),
        SProc::Split { parts, .. } => nodes_with(more, &parts.then),
        SProc::Match { parts, .. } => nodes_with(more, &parts.then),
        SProc::Decrypt { parts, .. } => nodes_with(more, &parts.then),
        SProc::Check { parts, .. } => nodes_with(more, &parts.then),
        SProc::Begin { parts, .. } | SProc::End { parts, .. } | SProc::EndMany { parts, .. } =>
            nodes_with(more, &parts.then),
        SProc::Cast { parts, .. } => nodes_with(more, &parts.then),
        SProc::New { parts, .. } => nodes_with(more, &parts.then),
    }
}

/// How many nodes there is to be room for: those of the process, or somewhat more than 100,000 where it has more.
pub fn nodes_of(p: &SProc) -> usize {
    nodes_with(0, p)
}
