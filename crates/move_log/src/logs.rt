// Check 16: whether a log is one that keep and taking back may work with.
mod fit;

pub use fit::log_good;
