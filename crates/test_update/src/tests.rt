//! Changes, counts and deadlines in rows, in drawn calls against a model, all calls mixed, of two threads at once, and where memory is refused.
mod adding;
mod counting;
mod counting_texts;
mod deadlines;
mod drawn;
mod large;
mod large_drawn;
mod large_threads;
mod large_values;
mod made;
mod mixed;
mod refused;
mod rows;
mod threads;
