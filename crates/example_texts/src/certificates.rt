//! Certificates.

/// The certificate of `TWO` on `ORDERED`.
pub const TWO_IN_ORDER: &str = "observable
test permitted: ok
node 0.0@0:S
node 1.0@0:S
edge 0.0@0:S 1.0@0:S
end
";
