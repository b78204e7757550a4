/// How many bytes a file of a model, a test or a query may have. Who reads the files judges this.
pub const MAX_FILE: usize = 1_048_576;
