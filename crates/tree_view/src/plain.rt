mod applies;
mod family;
mod new;
mod reads;
mod rows;
mod view;
mod walks;
mod writes;

pub use rows::PlainView;
