//! The lists of the platform's names.

use crate::platform::Platform;

// What a Window shows to documents of every origin, in order, and behind it the names that are given.
macro_rules! window_names {
    ($($own:expr),*) => {
        [
            Platform::Window,
            Platform::Itself,
            Platform::Location,
            Platform::Close,
            Platform::Closed,
            Platform::Focus,
            Platform::Blur,
            Platform::Frames,
            Platform::Length,
            Platform::Top,
            Platform::Opener,
            Platform::Parent,
            Platform::PostMessage,
            $($own),*
        ]
    };
}

/// What a Window shows to documents of another origin, in order (HTML, CrossOriginProperties).
pub const CROSS_WINDOW: [Platform; 13] = window_names!();

/// What a Location shows to documents of another origin, in order (HTML, CrossOriginProperties).
pub const CROSS_LOCATION: [Platform; 2] = [Platform::Href, Platform::Replace];

/// What the platform makes of a Window, in order.
pub(crate) const WINDOW_NAMES: [Platform; 15] = window_names!(Platform::Name, Platform::Origin);

/// What the platform makes of a Location, in order.
pub(crate) const LOCATION_NAMES: [Platform; 4] = [
    Platform::Href,
    Platform::Origin,
    Platform::Assign,
    Platform::Replace,
];
