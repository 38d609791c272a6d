//! How a flame graph is drawn.

/// Which way the boxes go.
#[derive(Clone, Copy)]
pub enum Layout {
    /// The outermost frames are at the top, and each frame is above those that it calls.
    Icicle,
    /// The outermost frames are at the bottom, and each frame is below those that it calls.
    Flame,
}

/// How a flame graph is drawn.
#[derive(Clone, Copy)]
pub struct Drawing<'a> {
    /// The title, where what is not UTF-8 is drawn as U+FFFD.
    pub title: &'a [u8],
    pub layout: Layout,
    /// The script that a browser runs over the picture, if there is one. It must not have `]]>`, which would end it.
    pub script: Option<&'a str>,
}
