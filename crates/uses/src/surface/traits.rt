//! The traits that the types of the libraries have: faults, values that are compared, keys and values of maps, streams.

use mdns_browse::ReportFault;
use mdns_capture::{BeginFault, Broken, Moment, ReadFault, Sink, Skip, Source, Through};
use mdns_join::{Copied, Join, JoinMap, Latest, Moments};
use mdns_message::{Key, MessageFault, NameFault, NameReadFault, Resource, SetKey, Want};
use mdns_survey::{ListenFault, SurveyFault};
use std::error::Error;
use std::fmt::Display;
use std::io::{Read, Write};

fn is_error<E: Error + Display>() {}

fn is_ordered<T: Ord>() {}

fn is_key<K: Copied>() {}

fn is_joined<V: Join>() {}

fn is_source<R: Source>() {}

fn is_sink<W: Sink>() {}

/// Names each fault, which is an error of the standard library.
pub fn faults_are_errors() {
    is_error::<BeginFault>();
    is_error::<ReadFault>();
    is_error::<Broken>();
    is_error::<Skip>();
    is_error::<Want>();
    is_error::<NameFault>();
    is_error::<NameReadFault>();
    is_error::<MessageFault>();
    is_error::<ReportFault>();
    is_error::<ListenFault>();
    is_error::<SurveyFault>();
}

/// Names each type whose values have an order.
pub fn values_are_ordered() {
    is_ordered::<Moment>();
    is_ordered::<Resource>();
    is_ordered::<Key>();
    is_ordered::<SetKey>();
}

/// Names each key and each value of maps.
pub fn maps_have_keys_and_values() {
    is_key::<Key>();
    is_key::<SetKey>();
    is_joined::<Latest>();
    is_joined::<Moments>();
    is_joined::<JoinMap<Key, Latest>>();
}

/// Names each source and each sink.
pub fn readers_and_writers_serve<R: Read + Drop, W: Write + Drop>() {
    is_source::<&[u8]>();
    is_source::<Through<R>>();
    is_sink::<Through<W>>();
}
